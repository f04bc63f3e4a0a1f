// Room for what is lent, and one kind of item made from another. There is room for a buffer and a list that are one too long.
ghost use Rattle.std.specs.Prelude.{◌≡◌, ◌≤◌, length};

pub(crate) const ROOM: usize = 65537;

// Items as bytes.
pub(crate) fn narrow(list: &[u32], buf: &mut [u8])
    requires { length list.now ≤ length buf.old }
    ensures { length buf.new ≡ length buf.old }
{
    for (i, &item) in list.iter().enumerate() {
        buf[i] = (item % 256) as u8;
    }
}

// Items in two's complement as corrections.
pub(crate) fn corrections(list: &[u32], signed: &mut [i32])
    requires { length list.now ≤ length signed.old }
    ensures { length signed.new ≡ length signed.old }
{
    for (i, &v) in list.iter().enumerate() {
        signed[i] = v.cast_signed();
    }
}
