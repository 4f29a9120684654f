// Answers in three words.
#![tactic(auto)]

ghost use Rattle.std.specs.Prelude.{◌≡◌, [], ◌∷◌, ℕ, List};
ghost use Rattle.rules.specs.Refusals.{number_of, place_of, answer_as};
ghost use Rattle.exclusion.specs.Answers.{finding_of};
ghost use Rattle.combining.specs.Answers.{combined_as};
ghost use Rattle.telling.specs.Told.{single, double, found_words, returned, told, told_of};

use combining::Fault;
use correcting::Correction;
use exclusion::Ruling;
use rules::Refusal;

// A value that is told in three words.
pub trait Told: Copy {
    ghost words: { Self → List ℕ };

    fn words(self) -> [u64; 3]
        ensures { result ≡ words self };
}

// A count.
impl Told for u64 {
    ghost words = { single };

    fn words(self) -> [u64; 3] {
        [self, 0, 0]
    }
}

// How many bytes were written, or setups.
impl Told for usize {
    ghost words = { single };

    fn words(self) -> [u64; 3] {
        [self as u64, 0, 0]
    }
}

// The closest setup, and in how many settings it differs.
impl Told for Correction {
    ghost words = { λ c. double (c.setup.0, c.distance) };

    fn words(self) -> [u64; 3] {
        [self.setup.0, self.distance, 0]
    }
}

// What was found of a setup.
impl Told for Ruling {
    ghost words = { λ r. found_words (finding_of r) };

    fn words(self) -> [u64; 3] {
        match self {
            Ruling::Permitted => [0, 0, 0],
            Ruling::Empty => [1, 0, 0],
            Ruling::By(by) => [2, by.settings, by.given.0],
        }
    }
}

// Tells a refusal by its place and the table that it names, or 0: its number is returned.
pub fn tell_refusal(refusal: Refusal, table: u64, answer: &mut [u64; 3]) -> u64
    ensures { (result ≡ number_of refusal) × (answer.new ≡ place_of refusal ∷ table ∷ 0 ∷ []) }
{
    *answer = [rules::place_of(refusal) as u64, table, 0];
    rules::number_of(refusal)
}

// Tells an answer: 0 is returned, or the refusal's number.
pub fn tell<T: Told>(value: Result<T, Refusal>, answer: &mut [u64; 3]) -> u64
    ensures { (result ≡ returned (answer_as T.words value)) × (answer.new ≡ told (λ (w : List ℕ). w) (answer_as T.words value)) }
{
    match value {
        Ok(told) => {
            *answer = told.words();
            0
        }
        Err(refusal) => tell_refusal(refusal, 0, answer),
    }
}

// Tells what two tables came to: the bytes written, or the refusal's place and the table that it is of.
pub fn tell_combined(combined: Result<usize, Fault>, answer: &mut [u64; 3]) -> u64
    ensures { (result ≡ returned (combined_as combined).1) × (answer.new ≡ told_of (combined_as combined).0 (combined_as combined).1) }
{
    match combined {
        Ok(m) => {
            *answer = m.words();
            0
        }
        Err(Fault::First(refusal)) => tell_refusal(refusal, 1, answer),
        Err(Fault::Second(refusal)) => tell_refusal(refusal, 2, answer),
        Err(Fault::Both(refusal)) => tell_refusal(refusal, 0, answer),
    }
}
