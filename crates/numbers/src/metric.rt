// The metric of a half-link and of a link (01, "The table" and "Links").
ghost use Rattle.std.specs.Prelude.{◌≡◌};
ghost use Rattle.rule.specs.Records.{in_limits, metric_limits};
ghost use Rattle.rule.specs.Links.{combined_metric, usable_metric};

#[derive(Clone, Copy)]
pub struct Metric(pub u32);

impl Metric {
    pub const LEAST: Metric = Metric(1);

    pub const GREATEST_USABLE: Metric = Metric(16777214);

    pub const UNUSABLE: Metric = Metric(16777215);

    // "A link costs the greater of its two metrics".
    pub fn combined(self, other: Metric) -> Metric
        ensures { result.0 ≡ combined_metric self.0 other.0 }
    {
        if self.0 < other.0 { other } else { self }
    }

    // "metric 1 to 16,777,215".
    pub fn is_in_range(self) -> bool
        ensures { result ≡ in_limits metric_limits self.0 }
    {
        if self.0 < Metric::LEAST.0 {
            return false;
        }
        self.0 <= Metric::UNUSABLE.0
    }

    // "usable when that is below 16,777,215": up to the greatest usable metric.
    pub fn is_usable(self) -> bool
        ensures { result ≡ usable_metric self.0 }
    {
        self.0 <= Metric::GREATEST_USABLE.0
    }
}
