// The few bytes that a field is made of.
#![tactic(auto)]

ghost use Rattle.std.specs.Prelude.{◌≡◌, take};
ghost use Rattle.fields.specs.Few.{few};

// A few bytes: the first `count` of an array.
#[derive(Clone, Copy)]
pub struct Few<const N: usize> {
    pub bytes: [u8; N],
    pub count: usize,
}

impl<const N: usize> Few<N> {
    // The bytes of an array, as many as there is a place for; 0 behind them.
    pub fn of<const M: usize>(from: [u8; M]) -> Few<N>
        ensures { result ≡ few N (take N from.entry) }
    {
        let count = M.min(N);
        let mut bytes = [0; N];
        bytes[..count].copy_from_slice(&from[..count]);
        Few { bytes, count }
    }

    // These bytes.
    pub fn as_slice(&self) -> &[u8]
        ensures { result.now ≡ take self.now.count self.now.bytes }
    {
        &self.bytes[..self.count.min(N)]
    }
}
