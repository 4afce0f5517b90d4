// How undefined terms are read, and the choice by which a caller asks for a reading.
#![tactic(auto)]

ghost use Rattle.std.specs.Prelude.{◌≡◌};
ghost use Rattle.answers.specs.Answers.{reading_of};
ghost use Rattle.reading.specs.Readings.{meant_by};

// The three readings of Frisch and Stuckey.
#[derive(Clone, Copy, Debug, PartialEq, Eq)]
pub enum Reading {
    Strict,
    Kleene,
    Relational,
}

// "choice not 1 to 3"
#[derive(Clone, Copy, Debug, PartialEq, Eq)]
pub struct BadChoice;

// "Choice 1 strict, 2 Kleene, 3 relational."
impl TryFrom<u32> for Reading {
    type Error = BadChoice;

    ghost try_from_gives = { λ choice given. meant_by given ≡ reading_of choice };

    #[tactic(auto, unfolding(answers::specs::Answers::reading_of))]
    fn try_from(choice: u32) -> Result<Reading, BadChoice> {
        match choice {
            1 => Ok(Reading::Strict),
            2 => Ok(Reading::Kleene),
            3 => Ok(Reading::Relational),
            _ => Err(BadChoice),
        }
    }
}
