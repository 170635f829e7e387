//! What a source's bytes hold: messages, and damage between them.
ghost use Rattle.std.specs.Prelude.{◌≡◌, ◌≤◌, length, take};
ghost use Rattle.std.specs.Int.Digits.{number_from_digits};
ghost use Rattle.sq_feed.specs.Kinds.{frame_len, frame_of, is_mode_s, kind_of, message_len, message_of};

/// The length of a frame in bytes.
#[derive(Clone, Copy)]
pub enum Size {
    TwoBytes,
    SevenBytes,
    FourteenBytes,
}

/// What an escape and a type byte start in a Beast stream.
#[derive(Clone, Copy)]
pub enum Kind {
    Message(Size),
    Status,
    ReceiverId,
    Unknown,
}

/// The bytes of a frame: a reply of Mode A/C, or a short or a long frame of Mode S.
#[derive(Clone, Copy)]
pub enum RawFrame {
    ModeAc([u8; 2]),
    Short([u8; 7]),
    Long([u8; 14]),
}

/// The time of a frame, as its source states it.
#[derive(Clone, Copy)]
pub enum Time {
    /// The source states none.
    Unknown,
    /// The low 48 bits of the receiver's count at 12 MHz.
    Ticks(u64),
    /// Milliseconds.
    Millis(u64),
}

/// A frame and its time.
#[derive(Clone, Copy)]
pub struct Message {
    pub time: Time,
    pub frame: RawFrame,
}

/// A frame with its timestamp (ms). A short frame is followed by zeros.
#[derive(Clone, Copy, Default)]
pub struct Timed {
    pub moment: u64,
    pub frame: [u8; 14],
}

/// What a source is, if it holds no frames in a known format.
#[derive(Clone, Copy)]
pub enum Stranger {
    /// SBS (BaseStation) text, which has positions and no frames.
    Sbs,
    /// A tar archive.
    Tar,
    /// Compressed by gzip, bzip2, xz or zstd, or a zip archive.
    Packed,
    /// Text in UTF-16.
    Utf16,
    /// Lines of JSON.
    Json,
    /// A table with semicolons between its columns.
    Semicolons,
    /// A table with tabs between its columns.
    Tabs,
    /// A table with a column `rawmsg`, and no column `time`, `mintime` or `timestamp`.
    NoTime,
    /// A table with columns of the time and `icao24`, and no column `rawmsg`.
    NoRawmsg,
    /// A table with frames in its third column, and no seconds in its first one.
    NoSeconds,
    /// A table with frames in another column than the third, and no names of its columns.
    NoNames,
    /// Bytes without any frame.
    NoFrame,
}

/// An item of a source: a message, bytes that belong to no message, the id of a receiver (readsb sends one before each
/// message), or a whole source that holds no frames.
#[derive(Clone, Copy, Default)]
pub enum Found {
    Whole(Message),
    #[default]
    Damage,
    ReceiverId,
    Foreign(Stranger),
}

// Returns whether a frame is of Mode S.
pub(crate) fn is_mode_s(frame: RawFrame) -> bool
    ensures { result ≡ is_mode_s frame }
{
    match frame {
        RawFrame::ModeAc(_) => false,
        RawFrame::Short(_) => true,
        RawFrame::Long(_) => true,
    }
}

// Returns the kind that a type byte starts.
#[inline(always)]
pub(crate) fn kind_of(byte: u8) -> Kind
    ensures { result ≡ kind_of byte }
{
    match byte {
        b'1' => Kind::Message(Size::TwoBytes),
        b'2' => Kind::Message(Size::SevenBytes),
        b'3' => Kind::Message(Size::FourteenBytes),
        b'4' => Kind::Status,
        0xE3 => Kind::ReceiverId,
        _ => Kind::Unknown,
    }
}

// Returns how many bytes follow the type byte of a message.
#[inline(always)]
pub(crate) fn message_len(size: Size) -> usize
    ensures { result ≡ message_len size }
{
    match size {
        Size::TwoBytes => 9,
        Size::SevenBytes => 14,
        Size::FourteenBytes => 21,
    }
}

// Returns the message of the bytes after its type byte.
#[inline(always)]
pub(crate) fn message_of(size: Size, bytes: &[u8]) -> Message
    requires { length bytes.now ≡ message_len size }
    ensures { result ≡ message_of size bytes.now }
{
    let time = Time::Ticks(ticks_of(bytes));
    let frame = frame_of(size, &bytes[7..]);
    Message { time, frame }
}

// Returns the receiver's count, which the first six bytes hold.
#[inline(always)]
pub(crate) fn ticks_of(bytes: &[u8]) -> u64
    requires { 6 ≤ length bytes.now }
    ensures { result ≡ number_from_digits 256 (take 6 bytes.now) }
{
    u64::from_be_bytes([
        0, 0, bytes[0], bytes[1], bytes[2], bytes[3], bytes[4], bytes[5],
    ])
}

// Returns the frame of these bytes.
#[inline(always)]
pub(crate) fn frame_of(size: Size, bytes: &[u8]) -> RawFrame
    requires { length bytes.now ≡ frame_len size }
    ensures { result ≡ frame_of size bytes.now }
{
    match size {
        Size::TwoBytes => RawFrame::ModeAc(array_of(bytes)),
        Size::SevenBytes => RawFrame::Short(array_of(bytes)),
        Size::FourteenBytes => RawFrame::Long(array_of(bytes)),
    }
}

// Returns the bytes as an array.
#[inline(always)]
fn array_of<const N: usize>(bytes: &[u8]) -> [u8; N]
    requires { length bytes.now ≡ N }
    ensures { result ≡ bytes.now }
{
    match bytes.as_array::<N>() {
        Some(array) => *array,
        None => [0; N],
    }
}
