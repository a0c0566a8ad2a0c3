//! The words of requests: whether they write.
ghost use Rattle.std.specs.Prelude.{◌≡◌};
ghost use Rattle.foreign_traces.specs.Writes.{loads_or_stores, reads_or_writes, transacts};

/// Whether `R` or `W` writes. `None` for any other word.
pub(crate) fn read_or_write(word: &[u8]) -> Option<bool> {
    match str::from_utf8(word) {
        Ok(word) => reads_or_writes(word),
        Err(_) => None,
    }
}

/// Whether `LD` or `ST` writes. `None` for any other word.
pub(crate) fn load_or_store(word: &[u8]) -> Option<bool> {
    match str::from_utf8(word) {
        Ok(word) => loads_or_stores(word),
        Err(_) => None,
    }
}

/// Whether a word of DRAMsim3 writes. It takes four words for writes, and every other word for a read; only those of reads
/// that are known are taken here.
pub(crate) fn transaction(word: &[u8]) -> Option<bool> {
    match str::from_utf8(word) {
        Ok(word) => transacts(word),
        Err(_) => None,
    }
}

#[tactic(auto, unfolding(crate::specs::Writes::reads_or_writes))]
fn reads_or_writes(word: &str) -> Option<bool>
    ensures { result ≡ reads_or_writes word.now }
{
    match word {
        "R" => Some(false),
        "W" => Some(true),
        _ => None,
    }
}

#[tactic(auto, unfolding(crate::specs::Writes::loads_or_stores))]
fn loads_or_stores(word: &str) -> Option<bool>
    ensures { result ≡ loads_or_stores word.now }
{
    match word {
        "LD" => Some(false),
        "ST" => Some(true),
        _ => None,
    }
}

#[tactic(auto, unfolding(crate::specs::Writes::transacts))]
fn transacts(word: &str) -> Option<bool>
    ensures { result ≡ transacts word.now }
{
    match word {
        "WRITE" => Some(true),
        "write" => Some(true),
        "P_MEM_WR" => Some(true),
        "BOFF" => Some(true),
        "READ" => Some(false),
        "read" => Some(false),
        "P_MEM_RD" => Some(false),
        "P_FETCH" => Some(false),
        _ => None,
    }
}
