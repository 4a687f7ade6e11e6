//! The traps that ask the monitor for a service.
ghost use Rattle.std.specs.Prelude.{◌≡◌, ◌<◌, false, slice_index};
ghost use Rattle.m88_isa.specs.Monitor.{service_of};
ghost use Rattle.m88_scoreboard.specs.Registers.{waiting_of};

use m88_base::Reg;
use m88_isa::{
    EXIT_SERVICE, MONITOR_TRAP, OUTPUT_REGISTER, PUT_SERVICE, SERVICE_REGISTER, Service,
};
use m88_scoreboard::RegFile;

/// What the monitor does at a taken trap of a vector, by the number in r9 and the low byte of r2.
pub fn service(vector: u16, regs: &RegFile) -> Service
    requires r2 { waiting_of regs.now 2 ≡ false }
    requires r9 { waiting_of regs.now 9 ≡ false }
    ensures { result ≡ service_of vector regs.now.numbers }
{
    if vector != MONITOR_TRAP {
        return Service::Unserved;
    }
    match number_in(regs, SERVICE_REGISTER) {
        PUT_SERVICE => Service::Out((number_in(regs, OUTPUT_REGISTER) % (1 << 8)) as u8),
        EXIT_SERVICE => Service::End,
        _ => Service::Unserved,
    }
}

/// The number in a register that doesn't wait.
fn number_in(regs: &RegFile, register: usize) -> u32
    requires register { register < 32 }
    requires ready { waiting_of regs.now register ≡ false }
    ensures { result ≡ slice_index regs.now.numbers register }
{
    match regs.get(Reg::from_low_bits(register as u32)) {
        Ok(number) => number,
        Err(_) => unreachable!(),
    }
}
