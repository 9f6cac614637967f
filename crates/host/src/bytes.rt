// A short row of bytes, kept in place.
ghost use Rattle.std.specs.Prelude.{◌≡◌, ◌+◌, ◌-◌, ◌<◌, ◌≤◌, ◌↔◌, [], ◌∷◌, ◌++◌, take, drop, replicate, IsTrue};

// At most N bytes. A buffer with its length: the kit's vectors of fixed capacity are not `Copy`, and a host's answers are copied.
#[derive(Clone, Copy, Debug)]
pub struct Bytes<const N: usize> {
    items: [u8; N],
    len: usize,
    ghost fits: { len ≤ N },
}

impl<const N: usize> Bytes<N> {
    // The first N bytes of a row, or all of them.
    pub fn first(row: &[u8]) -> Self
        ensures items { take result.len result.items ≡ take N row.now }
        ensures rest { drop result.len result.items ≡ replicate (N - result.len) 0 }
    {
        let mut items = [0; N];
        let len = row.len().min(N);
        items[..len].copy_from_slice(&row[..len]);
        Bytes { items, len }
    }

    pub fn empty() -> Self
        ensures len { result.len ≡ 0 }
        ensures items { result.items ≡ replicate N 0 }
    {
        Bytes {
            items: [0; N],
            len: 0,
        }
    }

    pub fn is_full(&self) -> bool
        ensures { IsTrue result ↔ (self.now.len ≡ N) }
    {
        self.len == N
    }

    // Adds a byte at the end, for which there is room.
    pub fn push(&mut self, byte: u8)
        requires { self.old.len < N }
        ensures len { self.new.len ≡ self.old.len + 1 }
        ensures items { take self.new.len self.new.items ≡ take self.old.len self.old.items ++ byte ∷ [] }
        ensures rest { drop self.new.len self.new.items ≡ drop self.new.len self.old.items }
    {
        self.items[self.len] = byte;
        self.len += 1;
    }

    pub fn as_slice(&self) -> &[u8]
        ensures { result.now ≡ take self.now.len self.now.items }
    {
        &self.items[..self.len]
    }

    pub fn len(&self) -> usize
        ensures { result ≡ self.now.len }
    {
        self.as_slice().len()
    }
}
