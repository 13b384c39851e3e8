ghost use Rattle.std.specs.Prelude.{◌≡◌};
ghost use Rattle.prices.specs.Kind.{source, sink, kind_of_letter};

// What an asset does for the pool: a source delivers energy to it, a sink takes energy from it.
#[derive(Clone, Copy, PartialEq, Eq, Debug)]
pub enum Kind {
    Generator,
    Import,
    Load,
    Export,
}

// A character that stands for no kind.
#[derive(Clone, Copy, PartialEq, Eq, Debug)]
pub struct UnknownLetter(pub char);

impl Kind {
    pub fn is_source(self) -> bool
        ensures { result ≡ source self }
    {
        match self {
            Kind::Generator | Kind::Import => true,
            Kind::Load | Kind::Export => false,
        }
    }

    pub fn is_sink(self) -> bool
        ensures { result ≡ sink self }
    {
        !self.is_source()
    }
}

impl TryFrom<char> for Kind {
    type Error = UnknownLetter;

    ghost try_from_gives = { λ letter answer. answer ≡ kind_of_letter letter };

    fn try_from(letter: char) -> Result<Kind, UnknownLetter> {
        match letter {
            'G' => Ok(Kind::Generator),
            'I' => Ok(Kind::Import),
            'L' => Ok(Kind::Load),
            'X' => Ok(Kind::Export),
            _ => Err(UnknownLetter(letter)),
        }
    }
}
