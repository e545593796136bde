// Bits and bytes as numbers: the parity of a number's bits, and eight bytes side by side.
#![tactic(auto)]

ghost use Rattle.std.specs.Prelude.{◌≡◌, ◌+◌, ◌*◌, ◌%◌, slice_index};
ghost use Rattle.std.specs.Int.Count.{ones};

// 1 if an odd number of bits is set, else 0.
pub fn parity(n: u64) -> u64
    ensures { result ≡ ones n % 2 }
{
    u64::from(n.count_ones() % 2)
}

// Eight bytes side by side as one number, the first byte lowest.
pub fn join_eight(bytes: [u8; 8]) -> u64
    ensures { result
        ≡ ((((((slice_index bytes 7 * 256 + slice_index bytes 6) * 256 + slice_index bytes 5) * 256
        + slice_index bytes 4) * 256 + slice_index bytes 3) * 256 + slice_index bytes 2) * 256
        + slice_index bytes 1) * 256 + slice_index bytes 0 }
{
    u64::from_le_bytes(bytes)
}
