// The answers to a list of questions, worked out.
ghost use Rattle.std.specs.Prelude.{◌≡◌, [], ◌∷◌};
ghost use Rattle.matrix.specs.Cases.{answers};

// Numbers, since one list holds the answers of several calls.
pub fn worked_cases() -> [u16; 8]
    ensures { result ≡ answers }
{
    [0, 13, 15, 13, 13, 16352, 0, 2]
}
