//! That the values of a slice are 16-bit numbers, as a fact that proofs can cite.
//! Nothing happens when it runs: the loop only reads.

ghost use Rattle.std.specs.Prelude.{FitsSigned};
ghost use Rattle.std.specs.List.{All};
ghost use mir.Syntax.{w16};

/// Each value of the slice lies in -32768..=32767, as its type says. It only reads, and a compiler leaves the loop out.
pub fn values_fit(values: &[i16])
    ensures { All (FitsSigned w16) values.now }
{
    for i in 0..values.len() {
        let _value = values[i];
    }
}
