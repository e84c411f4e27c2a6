//! What a file may be that is to be a store.

ghost use Rattle.std.specs.Prelude.{◌≡◌};

/// What a file may be that is to be a store, by how it begins.
#[derive(Clone, Copy, Debug, PartialEq, Eq)]
pub enum StoreStart {
    /// It has no byte.
    Nothing,
    /// It begins with a record, whole or not.
    Record,
    /// What a first write that was cut short may leave: one byte, or a closed gate and behind it at most one record.
    CutShort,
    /// Anything else.
    Other,
}

impl StoreStart {
    ghost use Rattle.edge_files.specs.StoreStart.{start_of};

    /// What a file of this length may be whose first byte is `gate`, and whose next four are this number.
    pub fn of(len: u64, gate: u8, payload: u32) -> StoreStart
        ensures start { result ≡ start_of len gate payload }
    {
        match gate {
            _ if len == 0 => StoreStart::Nothing,
            _ if len == 1 => StoreStart::CutShort,
            1 if len >= 6 => StoreStart::Record,
            0 if len <= 6 + u64::from(payload) => StoreStart::CutShort,
            _ => StoreStart::Other,
        }
    }
}
