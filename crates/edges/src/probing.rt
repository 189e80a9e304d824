// Looking for a word, slot by slot from the one that its hash names. Words and word are two things: lent memory, and what is asked.
ghost use Rattle.std.specs.Prelude.{◌≡◌, ◌<◌, length};
ghost use Rattle.std.specs.Option.{IfSome};
ghost use Rattle.edges.specs.Keys.{key as key_for, place, start};
ghost use Rattle.edges.specs.Table.{found_at, landing, slot_at, stops};

// The word of the pair u, v.
pub(crate) fn key_of(u: usize, v: usize) -> u32
    requires { (u < 512) × (v < 512) }
    ensures { result ≡ key_for u v }
{
    // narrows; proved to fit
    (u.max(v) * 512 + u.min(v)) as u32
}

fn start_of(slots: usize, word: u32) -> usize
    requires { 0 < slots }
    ensures place { result ≡ start slots word }
    ensures below { result < slots }
{
    ((word as usize).wrapping_mul(0x9E37_79B9_7F4A_7C15) >> 32) % slots
}

fn place_of(slots: usize, word: u32, steps: usize) -> usize
    requires { steps < slots }
    ensures place { result ≡ place slots word steps }
    ensures below { result < slots }
{
    let first = start_of(slots, word);
    let rest = slots - first;
    if steps < rest {
        first + steps
    } else {
        steps - rest
    }
}

// Whether the word or an empty slot is met there.
fn ends_at(words: &[u32], word: u32, steps: usize) -> bool
    requires { steps < length words.now }
    ensures { result ≡ stops words.now word steps }
{
    let there = words[place_of(words.len(), word, steps)];
    (there == word) | (there == 0)
}

// After how many steps the word or an empty slot is met.
fn steps_to(words: &[u32], word: u32) -> Option<usize>
    ensures steps { result ≡ landing words.now word }
    ensures inside { IfSome result (λ steps. steps < length words.now) }
{
    (0..words.len()).find(|steps| ends_at(words, word, *steps))
}

pub(crate) fn finds(words: &[u32], word: u32) -> bool
    ensures { result ≡ found_at words.now word (landing words.now word) }
{
    steps_to(words, word).is_some_and(|steps| words[place_of(words.len(), word, steps)] == word)
}

// The slot in which the word or an empty slot is met.
pub(crate) fn slot_for(words: &[u32], word: u32) -> usize
    ensures { result ≡ slot_at words.now word (landing words.now word) }
{
    steps_to(words, word).map_or(0, |steps| place_of(words.len(), word, steps))
}
