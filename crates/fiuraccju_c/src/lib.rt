// The analyzer as one C function: three stretches of bytes in, one number out.
//
// The answer is packed into the number that is returned, so there is no pointer to room for it that a C program could get
// wrong. `unpacked` says how to get its values back; library/include/fiuraccju.h does it in C. proofs/Promises has what a
// caller can rely on, of the number and of its own buffers.
#![tactic(auto)]

ghost use Rattle.std.specs.Prelude.{◌≡◌};
ghost use Rattle.vocabulary.specs.Said.{told_said};
ghost use Rattle.analyzer.specs.Said.{answer_said};
ghost use Rattle.fiuraccju_c.specs.Packed.{Packs, PacksAnswer, PackedRun};

use vocabulary::refusal::{Refusal, RefusalFields};

// The five values of a refusal, digit after digit.
fn pack(t: RefusalFields) -> u64
    ensures { Packs (told_said t) result }
{
    let number = u64::from(t.number);
    let function = u64::from(t.function);
    let place = u64::from(t.place);
    let cause = u64::from(t.cause);
    let value = u64::from(t.value);
    (((number * 65536 + function) * 65536 + place) * 256 + cause) * 65536 + value
}

fn of_answer(a: Result<usize, Refusal>) -> u64
    ensures { PacksAnswer (answer_said a) result }
{
    match a {
        Ok(n) => n as u64,
        Err(r) => pack(RefusalFields::from(r)),
    }
}

// Analyses the module file m. Returns the report's length, or the refusal's five values packed (the definition `packed`);
// dividing gives them back. The lent slices hold afterwards what `analyse` leaves in them.
#[unsafe(no_mangle)]
pub extern "C" fn fiuraccju_run(m: &[u8], report: &mut [u8], work: &mut [u8]) -> u64
    ensures { PackedRun m.now report.old work.old result report.new work.new }
{
    of_answer(analyzer::analyse(m, report, work))
}
