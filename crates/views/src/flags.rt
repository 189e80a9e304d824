// Tables of flags, a flag for each number.
ghost use Rattle.std.specs.Prelude.{◌≡◌};
ghost use Rattle.views.specs.Tables.{flag};

// Whether v is flagged; a number past the end is not.
pub(crate) fn flagged(flags: &[bool; 512], v: usize) -> bool
    ensures { result ≡ flag flags.now v }
{
    flags.get(v).copied().unwrap_or(false)
}
