// The entries, by their names.

#[derive(Clone, Copy)]
pub(crate) enum Entry {
    Write,
    WriteCorrections,
    WriteEnd,
    WriteWord,
    Read,
    ReadCorrections,
    ReadWord,
    LookUp,
    LookUpCorrection,
    Search,
    Check,
    CountWord,
}

impl Entry {
    pub(crate) fn named(name: &[u8]) -> Option<Entry> {
        match name {
            b"write" => Some(Entry::Write),
            b"write_corrections" => Some(Entry::WriteCorrections),
            b"write_end" => Some(Entry::WriteEnd),
            b"write_word" => Some(Entry::WriteWord),
            b"read" => Some(Entry::Read),
            b"read_corrections" => Some(Entry::ReadCorrections),
            b"read_word" => Some(Entry::ReadWord),
            b"look_up" => Some(Entry::LookUp),
            b"look_up_correction" => Some(Entry::LookUpCorrection),
            b"search" => Some(Entry::Search),
            b"check" => Some(Entry::Check),
            b"count_word" => Some(Entry::CountWord),
            _ => None,
        }
    }
}
