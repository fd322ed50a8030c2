// How a header is put into the columns.
ghost use Rattle.std.specs.Prelude.{◌≡◌, ◌<◌, ◌≤◌, List, length, replicate, take, slice_index, slice_set};
ghost use Rattle.header_lanes.specs.declared.slot.Slot.{Slot};
ghost use Rattle.header_lanes.specs.Slots.{AreColumns, head};

use crate::columns::Columns;

// The byte at this place, 0 behind the end.
fn byte(header: &[u8], at: usize) -> u8
    ensures { result ≡ slice_index header.now at }
{
    if at < header.len() { header[at] } else { 0 }
}

impl Columns {
    /// No header in any slot.
    pub fn new() -> Columns
        ensures { (s : Slot) → s.len ≡ 0 → s.protocol ≡ 0 → AreColumns result (replicate 16 s) }
    {
        Columns {
            lengths: [0; 16],
            protocols: [0; 16],
            first_high: [0; 16],
            first_low: [0; 16],
            second_high: [0; 16],
            second_low: [0; 16],
            third_high: [0; 16],
            third_low: [0; 16],
        }
    }

    /// Puts what the slot at `place` holds, which is this header.
    pub fn put(&mut self, place: usize, protocol: u32, header: &[u8])
        requires { place < 16 }
        ensures { (slots : List Slot) (s : Slot) → AreColumns self.old slots
            → head s ≡ take 96 header.now → s.protocol ≡ protocol → AreColumns self.new (slice_set slots place s) }
    {
        if header.len() < 22 {
            self.put_short(place, protocol, header);
        } else {
            self.put_long(place, protocol, header);
        }
    }

    fn put_short(&mut self, place: usize, protocol: u32, header: &[u8])
        requires { place < 16 }
        ensures { (slots : List Slot) (s : Slot) → AreColumns self.old slots
            → head s ≡ take 96 header.now → s.protocol ≡ protocol → AreColumns self.new (slice_set slots place s) }
    {
        self.lengths[place] = 96usize.min(header.len()) as u8;
        self.protocols[place] = protocol.min(255) as u8;
        self.first_high[place] = byte(header, 12);
        self.first_low[place] = byte(header, 13);
        self.second_high[place] = byte(header, 16);
        self.second_low[place] = byte(header, 17);
        self.third_high[place] = byte(header, 20);
        self.third_low[place] = byte(header, 21);
    }

    fn put_long(&mut self, place: usize, protocol: u32, header: &[u8])
        requires place { place < 16 }
        requires long { 22 ≤ length header.now }
        ensures { (slots : List Slot) (s : Slot) → AreColumns self.old slots
            → head s ≡ take 96 header.now → s.protocol ≡ protocol → AreColumns self.new (slice_set slots place s) }
    {
        self.lengths[place] = 96usize.min(header.len()) as u8;
        self.protocols[place] = protocol.min(255) as u8;
        self.first_high[place] = header[12];
        self.first_low[place] = header[13];
        self.second_high[place] = header[16];
        self.second_low[place] = header[17];
        self.third_high[place] = header[20];
        self.third_low[place] = header[21];
    }
}
