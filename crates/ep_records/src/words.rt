//! Few bytes as two numbers.
ghost use Rattle.std.specs.Prelude.{◌≡◌, ◌≤◌, ◌++◌, IfSome, IsSome, length, take};
ghost use Rattle.std.specs.Int.{to_le_bytes, w64};
ghost use Rattle.ep_records.specs.Slot.{first_bytes};

/// How many bytes stand in place.
pub(crate) const MOST: usize = 16;

/// At most 16 bytes as two numbers, each of which has its lowest byte first. How many they are stands elsewhere.
#[derive(Clone, Copy)]
pub struct Words {
    pub(crate) x: u64,
    pub(crate) y: u64,
}

/// Eight bytes as a number.
fn word_of(bytes: &[u8; 8]) -> u64
    ensures { to_le_bytes w64 result ≡ bytes.now }
{
    u64::from_le_bytes(*bytes)
}

/// All of these bytes.
fn words_of(room: &[u8; 16]) -> Words
    ensures { to_le_bytes w64 result.x ++ to_le_bytes w64 result.y ≡ room.now }
{
    let [a, b, c, d, e, f, g, h, i, j, k, l, m, n, o, p] = *room;
    Words {
        x: word_of(&[a, b, c, d, e, f, g, h]),
        y: word_of(&[i, j, k, l, m, n, o, p]),
    }
}

impl Words {
    /// These bytes, or `None` where they are more than 16.
    pub(crate) fn of(bytes: &[u8]) -> Option<Words>
        ensures is { IfSome result (λ w. first_bytes (length bytes.now) w.x w.y ≡ bytes.now) }
        ensures most { IfSome result (λ _. length bytes.now ≤ 16) }
        ensures few { length bytes.now ≤ 16 → IsSome result }
    {
        if bytes.len() > MOST {
            return None;
        }
        let mut room = [0; 16];
        room[..bytes.len()].copy_from_slice(bytes);
        Some(words_of(&room))
    }

    /// All 16 bytes.
    pub(crate) fn bytes(self) -> [u8; 16]
        ensures { result ≡ to_le_bytes w64 self.x ++ to_le_bytes w64 self.y }
    {
        let [a, b, c, d, e, f, g, h] = self.x.to_le_bytes();
        let [i, j, k, l, m, n, o, p] = self.y.to_le_bytes();
        [a, b, c, d, e, f, g, h, i, j, k, l, m, n, o, p]
    }
}

/// The first bytes of 16, or all of them.
pub(crate) fn front(room: &[u8; 16], count: u8) -> &[u8]
    ensures { result.now ≡ take count room.now }
{
    &room[..(count as usize).min(MOST)]
}
