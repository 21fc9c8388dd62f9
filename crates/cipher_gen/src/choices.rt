//! What a number chooses. Rounds are counted from 0.

ghost use Rattle.std.specs.Prelude.{◌≡◌, ◌≤◌, ◌<◌};
ghost use Rattle.cipher_gen.specs.Ciphers.{rounds, constant, rotation};

/// How many rounds there are, 1 to 8.
pub fn rounds(n: u64) -> u8
    ensures value { result ≡ rounds n }
    ensures most { result ≤ 8 }
{
    1 + (n % 8) as u8
}

/// The constant of a round, a word of 32 bits.
pub fn constant(n: u64, round: u8) -> u32
    ensures { result ≡ constant n round }
{
    let sum = u128::from(n) * 2_654_435_769 + (u128::from(round) + 1) * 2_246_822_519;
    (sum % (1 << 32)) as u32
}

/// By how many bits a round rotates, 1 to 31.
pub fn rotation(n: u64, round: u8) -> u8
    ensures value { result ≡ rotation n round }
    ensures most { result ≤ 31 }
{
    1 + (constant(n, round) % 31) as u8
}
