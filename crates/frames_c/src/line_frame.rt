// A frame of profile lines as plain numbers.

// The kind says which fields a frame has; the others are not looked at where it is written, and 0 where it was read.
#[repr(C)]
#[derive(Clone, Copy, Default, PartialEq, Eq, Debug)]
pub struct LineFrame {
    // 1 for a request of slots, 2 for slots, 3 for a token, 4 for an acknowledgement: C has a number here
    pub kind: u32,
    pub sender: u32,
    pub addressee: u32,
    pub s: u64,
    pub r: u64,
    pub n: u64,
    pub l: u64,
    // of a token's line
    pub place: u32,
    pub step: i32,
}
