// Runs vectors through the libraries and prints what they compute; the file stdout has what is expected.
// Beside each vector stands where that comes from: 'document 01' is the specification, 'lib.rs' and
// 'esc_manager.rs' the Rust originals, run on the same input.
#![tactic(auto)]

mod board_map;
mod calls;
mod captures;
mod crc;
mod frames;
mod idle;
mod in_place;
mod lanes;
mod print;
mod session;
mod settings;
mod speed;
mod steps;
mod streams;

fn main(rt: HostRuntime) {
    crc::run(&rt);
    frames::run(&rt);
    streams::run(&rt);
    captures::run(&rt);
    lanes::run(&rt);
    settings::run(&rt);
    idle::run(&rt);
    board_map::run(&rt);
    speed::run(&rt);
    session::run(&rt);
}
