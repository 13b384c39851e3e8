ghost use Rattle.std.specs.Prelude.{◌≡◌, [], ◌∷◌, ◌++◌};
ghost use Rattle.file.specs.Item.{rule_text};
ghost use Rattle.file.specs.Rule.{OnlyName};

use crate::body::Read;
use crate::broken::BrokenForm;
use crate::item::{Item, RuleName};
use crate::key::Key;
use crate::position::Position;

// The bytes of a rule's name with the line feed behind it.
fn name_line(name: RuleName) -> &'static [u8]
    ensures { result.now ≡ rule_text name ++ 10 ∷ [] }
{
    match name {
        RuleName::Largest => b"largest\n",
        RuleName::Running => b"running\n",
    }
}

impl<'a> Position<'a> {
    ghost use Rattle.file.specs.Body.{ReadsBody};

    // The only rule name that can begin with the byte here.
    fn rule_name(self) -> RuleName
        ensures { OnlyName self.entry.file.now self.entry.at result }
    {
        if self.has(b'r') {
            RuleName::Running
        } else {
            RuleName::Largest
        }
    }

    // Reads the name of a rule, or gives the first place that breaks both names.
    pub fn rule(self) -> Result<Read, BrokenForm>
        ensures { ReadsBody Key.Rule self.entry.file.now self.entry.at result }
    {
        let name = self.rule_name();
        let text = name_line(name);
        let count = self.agreement(text);
        let end = self.behind(count);
        if count < text.len() {
            return Err(end.broken());
        }
        Ok(Read {
            item: Item::Rule { name },
            next: end.at,
        })
    }
}
