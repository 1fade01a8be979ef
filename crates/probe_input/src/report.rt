// Reports on standard error.

// A line with the program's name and what is wrong.
pub fn report(program: &[u8], wrong: &[u8]) {
    io::write_all(2, program);
    io::write_all(2, b": ");
    io::write_all(2, wrong);
    io::write_all(2, b"\n");
}
