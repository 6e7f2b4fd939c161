//! Bytes as pairs of digits.
ghost use Rattle.std.specs.Prelude.{◌≡◌, ◌≤◌, ◌*◌, length};
ghost use Rattle.hex.specs.Hex.{encode_upper};

/// Each byte as a pair of digits, in upper case.
#[inline(always)]
pub fn fill_pairs(bytes: &[u8], output: &mut [u8])
    requires { length output.old ≡ 2 * length bytes.now }
    ensures { output.new ≡ encode_upper bytes.now }
{
    'bytes: for i in 0..bytes.len() {
        let pair = 2 * bytes[i] as usize;
        let (high, low) = (PAIRS[pair], PAIRS[pair + 1]);
        output[2 * i] = high;
        output[2 * i + 1] = low;
    }
}

/// The most bytes whose digits are written at once.
pub const PART: usize = 32;

/// Bytes as upper-case pairs of digits, in room for these: a text.
pub fn pairs_in<'a>(bytes: &[u8], room: &'a mut [u8]) -> &'a str
    requires { length room.old ≡ 2 * length bytes.now }
    ensures { result.now ≡ encode_upper bytes.now }
{
    fill_pairs(bytes, room);
    match std::str::from_utf8(room) {
        Ok(text) => text,
        Err(_) => unreachable!(),
    }
}

// The digits of every byte, high ones first.
static PAIRS: [u8; 512] = *b"\
    000102030405060708090A0B0C0D0E0F101112131415161718191A1B1C1D1E1F\
    202122232425262728292A2B2C2D2E2F303132333435363738393A3B3C3D3E3F\
    404142434445464748494A4B4C4D4E4F505152535455565758595A5B5C5D5E5F\
    606162636465666768696A6B6C6D6E6F707172737475767778797A7B7C7D7E7F\
    808182838485868788898A8B8C8D8E8F909192939495969798999A9B9C9D9E9F\
    A0A1A2A3A4A5A6A7A8A9AAABACADAEAFB0B1B2B3B4B5B6B7B8B9BABBBCBDBEBF\
    C0C1C2C3C4C5C6C7C8C9CACBCCCDCECFD0D1D2D3D4D5D6D7D8D9DADBDCDDDEDF\
    E0E1E2E3E4E5E6E7E8E9EAEBECEDEEEFF0F1F2F3F4F5F6F7F8F9FAFBFCFDFEFF";
