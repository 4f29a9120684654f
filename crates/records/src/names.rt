// Rule 9, by a mark for each node that a record names.
ghost use Rattle.std.specs.Prelude.{◌≡◌, true, ◌<◌, length};
ghost use Rattle.diagram.specs.Answer.{pass};
ghost use Rattle.rules.specs.Refusals.{verdict_as};
ghost use Rattle.records.specs.Inner.{check_marks};

use diagram::Node;
use rules::Refusal;

// Whether nodes 1 to `last` all have a mark. (There is no way out of the loop, so the compiler takes many marks at once.)
fn all_marked(marks: &[u8], last: usize) -> bool
    requires { last < length marks.now }
    ensures { result ≡ true → check_marks marks.now last ≡ pass }
{
    let mut all = true;
    for k in 1..=last {
        if marks[k] == 0 {
            all = false;
        }
    }
    all
}

// The lowest node from 1 to `last` that has no mark is refused.
pub fn check_marks(marks: &[u8], last: usize) -> Result<(), Refusal>
    requires { last < length marks.now }
    ensures { verdict_as result ≡ check_marks marks.now last }
{
    if all_marked(marks, last) {
        return Ok(());
    }
    for k in 1..=last {
        if marks[k] == 0 {
            return Err(Refusal::Unnamed(Node(k)));
        }
    }
    Ok(())
}
