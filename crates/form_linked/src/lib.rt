// The form checks as a C function, for the bench: what they answer and how long they take, without the rules. The
// library that is shipped does not have it.
#![tactic(auto)]

ghost use Rattle.std.specs.Prelude.{◌≡◌};
ghost use Rattle.definitions.specs.Limits.{version_1};
ghost use Rattle.definitions.specs.Form as forms;
ghost use Rattle.vocabulary.specs.Said.{told_said, step_said};
ghost use Rattle.form_linked.specs.Values.{values, values_of};

use vocabulary::refusal::{Refusal, RefusalFields};

// The five values of a refusal, in the paper's order.
fn five(t: RefusalFields) -> [u32; 5]
    ensures { result ≡ values (told_said t) }
{
    [
        u32::from(t.number),
        u32::from(t.function),
        u32::from(t.place),
        u32::from(t.cause),
        u32::from(t.value),
    ]
}

fn of_step(s: Result<(), Refusal>) -> [u32; 5]
    ensures { result ≡ values_of (step_said s) }
{
    match s {
        Ok(()) => [0; 5],
        Err(r) => five(RefusalFields::from(r)),
    }
}

// The refusal's five values, or five zeros where the form is right.
#[unsafe(no_mangle)]
pub extern "C" fn fiuraccju_form(m: &[u8], told: &mut [u32; 5])
    ensures { told.new ≡ values_of (forms.form version_1 m.now) }
{
    *told = of_step(form::form(m));
}
