// All that reaches standard error. A name is printed as it was given. Where standard error can't be written
// there is nowhere to say so.
fn of(rt: &HostRuntime, name: &[u8], what: &[u8]) {
    let errors = rt.stderr();
    let _ = errors.write_all(b"unitlines: ");
    let _ = errors.write_all(name);
    let _ = errors.write_all(what);
}

pub(crate) fn unknown_option(rt: &HostRuntime, text: &[u8]) {
    of(
        rt,
        text,
        b": unknown option; --help lists those there are\n",
    );
}

pub(crate) fn not_opened(rt: &HostRuntime, name: &[u8]) {
    of(rt, name, b": could not be opened\n");
}

pub(crate) fn not_read(rt: &HostRuntime, name: &[u8]) {
    of(rt, name, b": could not be read\n");
}

pub(crate) fn not_written(rt: &HostRuntime) {
    of(rt, b"standard output", b": could not be written\n");
}
