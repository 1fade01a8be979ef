// The two changes of a running plan, as functions for the benchmark. Of them only safety is proved.
use edits::change::{HalfLinkName, Running, RunningAnswer};
use rule::kinds::MOST_BRIDGES;
use running::calls::{change_metric, withdraw};

// The length of the table after a change, or the refusal number.
fn length_after(answer: RunningAnswer) -> u32 {
    match answer {
        RunningAnswer::Kept(running) => running.length,
        RunningAnswer::Refused {
            number,
            kind: _,
            word: _,
        } => number,
    }
}

// One change of metric.
#[unsafe(no_mangle)]
pub extern "C" fn bench_change(
    table: &mut [u8],
    length: u32,
    vid: u32,
    near: u32,
    port: u32,
    metric: u32,
) -> u32 {
    let running = Running {
        length: length,
        bridge: 0,
        vid: vid,
        changes: 0,
    };
    let name = HalfLinkName {
        near: near,
        port: port,
    };
    let mut costs = [0u32; MOST_BRIDGES];
    let mut hops = [0u32; MOST_BRIDGES];
    let mut lasts = [0u32; MOST_BRIDGES];
    let answer = change_metric(
        running, name, metric, table, &mut costs, &mut hops, &mut lasts,
    );
    length_after(answer)
}

// One withdrawal.
#[unsafe(no_mangle)]
pub extern "C" fn bench_withdraw(
    table: &mut [u8],
    length: u32,
    vid: u32,
    near: u32,
    port: u32,
) -> u32 {
    let running = Running {
        length: length,
        bridge: 0,
        vid: vid,
        changes: 0,
    };
    let name = HalfLinkName {
        near: near,
        port: port,
    };
    let mut costs = [0u32; MOST_BRIDGES];
    let mut hops = [0u32; MOST_BRIDGES];
    let mut lasts = [0u32; MOST_BRIDGES];
    let answer = withdraw(running, name, table, &mut costs, &mut hops, &mut lasts);
    length_after(answer)
}
