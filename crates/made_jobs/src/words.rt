//! The words SEED and REQUESTS.
ghost use Rattle.std.specs.Prelude.{◌≡◌, map, string_bytes};
ghost use Rattle.made_jobs.specs.Words.{numbers_of, seed_and_requests};

use ddr_text::number_of;

/// As many requests as a made job may have.
pub const MOST: u64 = 1_048_576;

/// The seed and the number of requests that two words spell, each a decimal number without a leading
/// zero but in `0` itself. `None` exactly where one is no such number, the seed is above 2^64 - 1, or
/// the requests are more than 1,048,576.
pub fn read_numbers(seed: &str, requests: &str) -> Option<(u64, u64)>
    ensures { result ≡ numbers_of seed.now requests.now }
{
    match (number_of(seed.as_bytes()), number_of(requests.as_bytes())) {
        (Ok(seed), Ok(requests)) if requests <= MOST => Some((seed, requests)),
        _ => None,
    }
}

/// The same of a list of words. `None` also exactly where the words are not two.
#[tactic(auto, unfolding(crate::specs::Words::seed_and_requests))]
pub fn read_words(words: &[String]) -> Option<(u64, u64)>
    ensures { result ≡ seed_and_requests (map string_bytes words.now) }
{
    match words {
        [seed, requests] => read_numbers(seed.as_str(), requests.as_str()),
        _ => None,
    }
}
