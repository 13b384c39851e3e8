ghost use Rattle.std.specs.Prelude.{◌≡◌, ℕ, ◌<◌, ◌∷◌, ◌++◌, IfOk, IfSome, MatchOption, ◌≢◌, decimal};
ghost use Rattle.std.specs.Char.{encode_utf8};
ghost use Rattle.hourbill.specs.Line.{block_text, AreWritten};

use crate::error::Fault;
use prices::Block;
use std::alloc::Global;

// The texts before and behind the first separator.
pub fn halves(text: &str, separator: char) -> Option<(&str, &str)>
    requires { separator < 128 }
    ensures { IfSome result (λ parts. text.now ≡ parts.0.now ++ (separator ∷ parts.1.now)) }
{
    text.split_once(separator)
}

// The number that a text writes in the one way allowed, without a sign or needless zeros.
pub fn number(heap: Global, text: &str) -> Result<u32, Fault>
    ensures { IfOk result (λ n. text.now ≡ decimal n) }
{
    let value: u32 = text.parse().ok().ok_or(Fault::Number)?;
    let written = format!(in heap; "{value}")?;
    if written.as_str() == text {
        Ok(value)
    } else {
        Err(Fault::Number)
    }
}

// The only character of a text.
pub fn letter(text: &str) -> Option<char>
    ensures { MatchOption result ((c : ℕ) → text.now ≢ encode_utf8 c) (λ c. text.now ≡ encode_utf8 c) }
{
    let mut characters = text.chars();
    match (characters.next(), characters.next()) {
        (Some(only), None) => Some(only),
        _ => None,
    }
}

// A size and a price, split by a colon.
fn block(heap: Global, text: &str) -> Result<Block, Fault>
    ensures { IfOk result (λ b. text.now ≡ block_text b) }
{
    let (size, price) = halves(text, ':').ok_or(Fault::OfferLine)?;
    Ok(Block {
        size: number(heap, size)?,
        price: number(heap, price)?,
    })
}

// Blocks split by commas; as a chain it is one line shorter, and its contract needs the run of three adapters by hand.
pub fn blocks(heap: Global, text: &str) -> Result<Vec<Block>, Fault>
    ensures { IfOk result (λ list. AreWritten list.items text.now) }
{
    let mut list = Vec::new(heap);
    for part in text.split(',') {
        list.push(block(heap, part)?)?;
    }
    Ok(list)
}
