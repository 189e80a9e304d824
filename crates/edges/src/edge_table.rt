// The store itself. All n vertices stand. No word is ever taken out, so what is not found before an empty slot is nowhere.
ghost use Rattle.std.specs.Prelude.{◌≡◌, ℕ, true, length};
ghost use Rattle.edges.specs.Table.{Fit, filled, no_gap, pairs_in};

#[derive(Drop)]
pub struct EdgeTable<'a> {
    pub(crate) n: usize,
    // how many pairs are joined, each in a slot of its own
    pub(crate) used: usize,
    pub(crate) words: &'a mut [u32],
    ghost size: { Fit n (length words.now) },
    ghost pairs: { used ≡ pairs_in n words.now },
    ghost slots: { used ≡ filled words.now },
    ghost gapless: { (k e d : ℕ) → no_gap words.now k e d ≡ true },
}
