ghost use Rattle.std.specs.Prelude.{◌≡◌, ◌≤◌, ◌<◌, ◌-◌, ◌+◌, ◌^◌, ◌++◌, [], ℕ, List, Some, min, length, IfOk, IfErr, OnOk, IfSome, slice_get, take, drop};
ghost use Rattle.lapd_capture.specs.Octets.{number_at};
ghost use Rattle.lapd_capture.specs.Packet.{IsWithin};
ghost use Rattle.lapd_capture.specs.Reader.{Opens, OpensAs, Steps, TakesBody, TakesLast, reading_of, unread};
ghost use Rattle.lapd_capture.specs.Reading.{after_section, first_unserved, block_after, block_ended, block_missing, block_moment, block_of_kind, block_of_length, block_order, block_rest, block_step, enhanced_packet, fault_of_magic, interface_step, item_on, moment_at, moment_on, next_step, opened, opened_from, or_end, order_of_magic, order_of_pcap, other_step, pcap_opened, record_after, record_found, record_step, section_step, simple_packet, snapped, units_of_pcap, unread_capture, with_link};
ghost use Rattle.lapd_capture.specs.Takes.{IsApart};

use crate::fault::{CaptureFault, ReadFault};
use crate::format::Format;
use crate::interface::{Interface, after, first_unserved, missing_in, padded, units_in};
use crate::item::{CaptureItem, PacketFault, Span};
use crate::link_type::LinkType;
use crate::order::Order;
use crate::packet::captured_packet_at;
use crate::taking::{Taken, skip, take_all};
use arrayvec::ArrayVec;
use std::alloc::Global;
use std::io::{BufReader, ErrorKind, Read};

/// The greatest length of a packet, in octets.
const MOST_PACKET: usize = 262_144;

/// The greatest part of the body of a block that is kept, in octets: the numbers of an enhanced
/// packet block after its interface, and its packet.
const MOST_BODY: usize = 16 + MOST_PACKET;

/// The most interfaces of a section of a pcapng file.
const MOST_INTERFACES: usize = 64;

/// The kind of a section header, the first block of a pcapng file. Both byte orders have the same
/// number.
pub(crate) const SECTION: usize = 0x0a0d_0d0a;

/// The kind of an interface description.
const INTERFACE: usize = 1;

/// The kind of a simple packet block.
const SIMPLE_PACKET: usize = 3;

/// The kind of an enhanced packet block.
const ENHANCED_PACKET: usize = 6;

/// The least length of a block, in octets.
const LEAST_BLOCK: usize = 12;

/// The length of a record's header, in octets.
const RECORD_HEADER: usize = 16;

const NOT_A_CAPTURE: ReadFault = ReadFault::Capture(CaptureFault::NotACapture);

const CUT: ReadFault = ReadFault::Capture(CaptureFault::Cut);

const BAD_LENGTH: ReadFault = ReadFault::Capture(CaptureFault::BadLength);

/// 2^64 octets or packets were read.
const TOO_LONG: ReadFault = ReadFault::Device(ErrorKind::FileTooLarge);

const BAD_PACKET: CaptureItem = CaptureItem::Unreadable(PacketFault::BadLength);

/// A capture that is read from a reader, record by record. It keeps the packet read last, at most
/// 262,160 octets, and a buffer of 8,192 octets.
#[derive(Drop)]
pub struct CaptureReader<R> {
    source: BufReader<R>,
    place: u64,
    order: Order,
    format: Format,
    interfaces: ArrayVec<Interface, MOST_INTERFACES>,
    packets: u64,
    moment: Option<u64>,
    missing: u64,
    /// The octets of the last record or block in which a frame is found.
    body: Vec<u8>,
}

impl<R: Read> CaptureReader<R> {
    /// Opens the capture of this reader: at its first record, or after its first section header.
    ///
    /// # Errors
    ///
    /// `NotACapture` and `Gzip`, after four octets; for a pcap file also `Cut` if it is shorter
    /// than its header, and `LinkNotServed`; for a pcapng file the faults of its first block.
    /// `Device` if a read fails, `Memory` if an allocation fails.
    pub fn new(alloc: Global, source: R) -> Result<CaptureReader<R>, ReadFault>
    where
        R: Drop,
        ensures { IfSome (R.remaining source)
            (λ octets. OpensAs R.remaining (opened octets) result) }
    {
        let Ok(source) = BufReader::new(alloc, source) else {
            return Err(ReadFault::Memory);
        };
        let mut reader = CaptureReader::of_source(alloc, source);
        match reader.open() {
            Ok(()) => Ok(reader),
            Err(fault) => Err(fault),
        }
    }

    /// A capture of which nothing is read.
    fn of_source(alloc: Global, source: BufReader<R>) -> CaptureReader<R>
        ensures source { result.source ≡ source }
        ensures unread { reading_of result [] ≡ unread_capture [] }
    {
        CaptureReader {
            source,
            place: 0,
            order: Order::Big,
            format: Format::Pcapng,
            interfaces: ArrayVec::new(),
            packets: 0,
            moment: None,
            missing: 0,
            body: Vec::new(alloc),
        }
    }

    /// The place of the next record or block: how many octets are before it.
    pub fn place(&self) -> u64
        ensures { result ≡ self.now.place }
    {
        self.place
    }

    /// How many packets were read, with or without a frame. So it is also the number of the last
    /// packet, from 1.
    pub fn packets(&self) -> u64
        ensures { result ≡ self.now.packets }
    {
        self.packets
    }

    /// When the last packet that was read was captured, in microseconds since 1970. `None` before
    /// the first packet, and if the capture does not say it.
    pub fn moment(&self) -> Option<u64>
        ensures { result ≡ self.now.moment }
    {
        self.moment
    }

    /// How many packets the capture says that it lacks, before those that were read: the sum of the
    /// options epb_dropcount of pcapng. At most 2^64 - 1.
    pub fn missing(&self) -> u64
        ensures { result ≡ self.now.missing }
    {
        self.missing
    }

    /// The octets of a frame that was found last.
    pub fn octets_of(&self, frame: Span) -> &[u8]
        requires { IsWithin (length self.now.body.items) (CaptureItem.Frame frame) }
        ensures { result.now ≡ take (frame.end - frame.start)
            (drop frame.start self.now.body.items) }
    {
        &self.body.as_slice()[frame.start..frame.end]
    }

    /// The number of the first interface's link type from which frames can't be read, of the
    /// interfaces that the present section of a pcapng file has described so far.
    pub fn unserved(&self) -> Option<usize>
        ensures { result ≡ first_unserved self.now.interfaces.items }
    {
        first_unserved(self.interfaces.as_slice())
    }

    /// Reads the next record or block.
    ///
    /// # Errors
    ///
    /// `Cut`, `BadLength`, `TooManyInterfaces`, and `NotACapture` if a section of pcapng has an
    /// unknown byte order; `Device` if a read fails, `Memory` if an allocation fails. The capture
    /// can't be read further then.
    pub fn next(&mut self) -> Result<CaptureItem, ReadFault>
        ensures step { Steps R.remaining next_step result self.old self.new }
        ensures within { IfOk result (IsWithin (length self.new.body.items)) }
    {
        match self.format {
            Format::Pcap => self.next_record(),
            Format::Pcapng => self.next_block(),
        }
    }

    /// Whether the next record or block is already in memory, so that reading it does not wait for
    /// the reader.
    pub fn is_buffered(&self) -> bool {
        let octets = self.source.buffer();
        match self.format {
            Format::Pcap => {
                octets.len() >= RECORD_HEADER
                    && octets.len() - RECORD_HEADER >= self.order.u32_at(8, octets)
            }
            Format::Pcapng => {
                octets.len() >= LEAST_BLOCK && octets.len() >= self.order.u32_at(4, octets)
            }
        }
    }

    // ---- The head of a file.

    /// Opens the capture.
    fn open(&mut self) -> Result<(), ReadFault>
        ensures { (left : List ℕ) → unread R.remaining self.old ≡ Some left
            → Opens R.remaining (opened_from (reading_of self.old left)) result self.new }
    {
        let mut magic = [0; 4];
        match take_all(&mut self.source, &mut magic)? {
            Taken::All => self.open_by_magic(&magic),
            Taken::Part | Taken::Nothing => Err(NOT_A_CAPTURE),
        }
    }

    /// Opens the capture after its first four octets.
    fn open_by_magic(&mut self, magic: &[u8; 4]) -> Result<(), ReadFault>
        ensures { (left : List ℕ) → unread R.remaining self.old ≡ Some left
            → Opens R.remaining (opened_from (reading_of self.old (magic.now ++ left))) result
            self.new }
    {
        let number = Order::Big.u32_at(0, magic);
        if number == SECTION {
            return self.open_pcapng(magic);
        }
        match order_of_pcap(number) {
            None => Err(ReadFault::Capture(fault_of_magic(number))),
            Some(order) => self.open_pcap(order, units_of_pcap(number)),
        }
    }

    /// Opens a pcapng file after its first four octets, and reads its first section header.
    fn open_pcapng(&mut self, magic: &[u8; 4]) -> Result<(), ReadFault>
        ensures { (left : List ℕ) → unread R.remaining self.old ≡ Some left
            → Opens R.remaining (after_section (block_step (reading_of self.old
            (magic.now ++ left)))) result self.new }
    {
        let mut rest = [0; 8];
        match take_all(&mut self.source, &mut rest)? {
            Taken::All => {}
            Taken::Part | Taken::Nothing => return Err(CUT),
        }
        match self.take_block(&head_of(*magic, rest)) {
            Ok(_) => Ok(()),
            Err(fault) => Err(fault),
        }
    }

    /// Opens a pcap file after its first four octets.
    fn open_pcap(&mut self, order: Order, units: u64) -> Result<(), ReadFault>
        ensures { (left : List ℕ) → unread R.remaining self.old ≡ Some left
            → Opens R.remaining (pcap_opened order units (reading_of self.old left)) result
            self.new }
    {
        let mut header = [0; 20];
        match take_all(&mut self.source, &mut header)? {
            Taken::All => {}
            Taken::Part | Taken::Nothing => return Err(CUT),
        }
        self.set_link(
            order,
            LinkType::of(order.u32_at(16, &header) % 0x1_0000),
            units,
        )
    }

    /// Begins the records of a pcap file.
    fn set_link(&mut self, order: Order, link: LinkType, units: u64) -> Result<(), ReadFault>
        ensures { (left : List ℕ) → unread R.remaining self.old ≡ Some left
            → Opens R.remaining (with_link order link units (reading_of self.old left)) result
            self.new }
    {
        if let LinkType::NotServed(number) = link {
            return Err(ReadFault::Capture(CaptureFault::LinkNotServed(number)));
        }
        self.interfaces.clear();
        self.interfaces.push(Interface {
            link,
            units,
            snap: 0,
        });
        self.place = 24;
        self.order = order;
        self.format = Format::Pcap;
        Ok(())
    }

    // ---- Both formats.

    /// Takes the next octets as the body.
    fn take_body(&mut self, count: usize) -> Result<(), ReadFault>
        ensures body { TakesBody R.remaining count result self.old self.new }
        ensures len { OnOk result (length self.new.body.items ≡ count) }
    {
        self.body.clear();
        if self.body.resize(count, 0).is_err() {
            return Err(ReadFault::Memory);
        }
        match take_all(&mut self.source, self.body.as_mut_slice())? {
            Taken::All => Ok(()),
            Taken::Part | Taken::Nothing => Err(CUT),
        }
    }

    /// Counts octets that were read.
    fn advance(&mut self, count: usize) -> Result<(), ReadFault>
        ensures ok { OnOk result (self.new
            ≡ record self.old { place = self.old.place + count }) }
        ensures err { IfErr result IsApart }
    {
        match self.place.checked_add(count as u64) {
            Some(place) => {
                self.place = place;
                Ok(())
            }
            None => Err(TOO_LONG),
        }
    }

    /// Counts a packet that was read.
    fn pass_packet(&mut self, count: usize, moment: Option<u64>) -> Result<(), ReadFault>
        ensures ok { OnOk result (self.new ≡ record self.old {
          place = self.old.place + count;
          packets = self.old.packets + 1;
          moment = moment;
        }) }
        ensures err { IfErr result IsApart }
    {
        let Some(packets) = self.packets.checked_add(1) else {
            return Err(TOO_LONG);
        };
        self.advance(count)?;
        self.packets = packets;
        self.moment = moment;
        Ok(())
    }

    /// The content of a packet of this original length on an interface, captured from `start` to
    /// `kept`.
    fn item_on(&self, interface: usize, original: usize, start: usize, kept: usize) -> CaptureItem
        requires fits { original < 2 ^ 32 }
        requires order { start ≤ kept }
        requires within { kept ≤ length self.now.body.items }
        ensures exact { result ≡ item_on (slice_get self.now.interfaces.items interface) original
            start kept self.now.body.items }
        ensures within { IsWithin (length self.now.body.items) result }
    {
        match self.interfaces.as_slice().get(interface) {
            None => CaptureItem::Unreadable(PacketFault::NoInterface),
            Some(interface) => {
                captured_packet_at(original, interface.link, start, kept, self.body.as_slice())
            }
        }
    }

    // ---- pcap.

    /// Reads the next record.
    fn next_record(&mut self) -> Result<CaptureItem, ReadFault>
        ensures step { Steps R.remaining (or_end record_step) result self.old self.new }
        ensures within { IfOk result (IsWithin (length self.new.body.items)) }
    {
        let mut header = [0; RECORD_HEADER];
        match take_all(&mut self.source, &mut header)? {
            Taken::All => self.take_record(&header),
            Taken::Part => Err(CUT),
            Taken::Nothing => Ok(CaptureItem::End),
        }
    }

    /// Reads a record after its header.
    fn take_record(&mut self, header: &[u8; RECORD_HEADER]) -> Result<CaptureItem, ReadFault>
        ensures step { Steps R.remaining (record_after header.now) result self.old self.new }
        ensures within { IfOk result (IsWithin (length self.new.body.items)) }
    {
        let captured = self.order.u32_at(8, header);
        if captured > MOST_PACKET {
            return Err(BAD_LENGTH);
        }
        self.take_body(captured)?;
        self.find_in_record(captured, header)
    }

    /// Finds what is in the packet of a record.
    fn find_in_record(
        &mut self,
        captured: usize,
        header: &[u8; RECORD_HEADER],
    ) -> Result<CaptureItem, ReadFault>
        requires most { captured ≤ MOST_PACKET }
        requires len { length self.old.body.items ≡ captured }
        ensures step { Steps R.remaining (record_found header.now captured) result self.old
            self.new }
        ensures within { IfOk result (IsWithin (length self.new.body.items)) }
    {
        let item = self.item_on(0, self.order.u32_at(12, header), 0, captured);
        let moment = self.record_moment(header);
        self.pass_packet(RECORD_HEADER + captured, moment)?;
        Ok(item)
    }

    /// The moment of the packet of a record.
    fn record_moment(&self, header: &[u8; RECORD_HEADER]) -> Option<u64>
        ensures { result ≡ moment_at (slice_get self.now.interfaces.items 0)
            (number_at self.now.order 4 0 header.now) (number_at self.now.order 4 4 header.now) }
    {
        match self.interfaces.as_slice().first() {
            None => None,
            Some(interface) => interface.moment_at(
                self.order.u32_at(0, header) as u32,
                self.order.u32_at(4, header) as u32,
            ),
        }
    }

    // ---- pcapng.

    /// Reads the next block.
    fn next_block(&mut self) -> Result<CaptureItem, ReadFault>
        ensures step { Steps R.remaining (or_end block_step) result self.old self.new }
        ensures within { IfOk result (IsWithin (length self.new.body.items)) }
    {
        let mut head = [0; LEAST_BLOCK];
        match take_all(&mut self.source, &mut head)? {
            Taken::All => self.take_block(&head),
            Taken::Part => Err(CUT),
            Taken::Nothing => Ok(CaptureItem::End),
        }
    }

    /// Reads a block after its head.
    fn take_block(&mut self, head: &[u8; LEAST_BLOCK]) -> Result<CaptureItem, ReadFault>
        ensures step { Steps R.remaining (block_after head.now) result self.old self.new }
        ensures within { IfOk result (IsWithin (length self.new.body.items)) }
    {
        match block_order(head, self.order) {
            Ok(order) => {
                self.order = order;
                self.take_length(order.u32_at(4, head), head)
            }
            Err(fault) => Err(ReadFault::Capture(fault)),
        }
    }

    /// Reads a block of this length after its head.
    fn take_length(
        &mut self,
        count: usize,
        head: &[u8; LEAST_BLOCK],
    ) -> Result<CaptureItem, ReadFault>
        ensures step { Steps R.remaining (block_of_length count head.now) result self.old self.new }
        ensures within { IfOk result (IsWithin (length self.new.body.items)) }
    {
        if count < LEAST_BLOCK {
            return Err(BAD_LENGTH);
        }
        if count % 4 != 0 {
            return Err(BAD_LENGTH);
        }
        if count == LEAST_BLOCK {
            self.body.clear();
            return self.end_block(self.order.u32_at(8, head), count, head);
        }
        self.take_rest(count, head)
    }

    /// Reads the rest of a block of this length.
    fn take_rest(
        &mut self,
        count: usize,
        head: &[u8; LEAST_BLOCK],
    ) -> Result<CaptureItem, ReadFault>
        requires { 16 ≤ count }
        ensures step { Steps R.remaining (block_rest count head.now) result self.old self.new }
        ensures within { IfOk result (IsWithin (length self.new.body.items)) }
    {
        let kept = (count - 16).min(MOST_BODY);
        self.take_body(kept)?;
        let last = self.take_last(count - 16 - kept)?;
        self.end_block(self.order.u32_at(0, &last), count, head)
    }

    /// Skips this many octets, and takes the four after them.
    fn take_last(&mut self, count: usize) -> Result<[u8; 4], ReadFault>
        ensures last { TakesLast R.remaining count result self.old self.new }
        ensures same { self.new ≡ record self.old { source = self.new.source } }
    {
        let mut last = [0; 4];
        if !skip(&mut self.source, count)? {
            return Err(CUT);
        }
        match take_all(&mut self.source, &mut last)? {
            Taken::All => Ok(last),
            Taken::Part | Taken::Nothing => Err(CUT),
        }
    }

    /// Reads what is in a block, if this last number is its length.
    fn end_block(
        &mut self,
        last: usize,
        count: usize,
        head: &[u8; LEAST_BLOCK],
    ) -> Result<CaptureItem, ReadFault>
        requires { length self.old.body.items ≡ min (count - 16) MOST_BODY }
        ensures step { Steps R.remaining (block_ended last count head.now) result self.old
            self.new }
        ensures within { IfOk result (IsWithin (length self.new.body.items)) }
    {
        if last != count {
            return Err(BAD_LENGTH);
        }
        self.take_kind(self.order.u32_at(0, head), count, head)
    }

    /// Reads what is in a block of this kind.
    fn take_kind(
        &mut self,
        kind: usize,
        count: usize,
        head: &[u8; LEAST_BLOCK],
    ) -> Result<CaptureItem, ReadFault>
        requires { length self.old.body.items ≡ min (count - 16) MOST_BODY }
        ensures step { Steps R.remaining (block_of_kind kind count head.now) result self.old
            self.new }
        ensures within { IfOk result (IsWithin (length self.new.body.items)) }
    {
        match kind {
            SECTION => self.take_section(count),
            INTERFACE => self.take_interface(count, head),
            ENHANCED_PACKET => {
                let (item, moment) = (
                    self.enhanced_packet(count, head),
                    self.block_moment(count, head),
                );
                self.missing = self.missing.saturating_add(self.block_missing(count));
                self.pass_packet(count, moment)?;
                Ok(item)
            }
            SIMPLE_PACKET => {
                let item = self.simple_packet(count, head);
                self.pass_packet(count, None)?;
                Ok(item)
            }
            _ => self.take_other(count),
        }
    }

    /// Passes a block without a packet.
    fn take_other(&mut self, count: usize) -> Result<CaptureItem, ReadFault>
        ensures step { Steps R.remaining (other_step count) result self.old self.new }
        ensures other { IfOk result (λ item. item ≡ CaptureItem.Other) }
    {
        self.advance(count)?;
        Ok(CaptureItem::Other)
    }

    /// Passes a section header, and forgets the interfaces of the section before.
    fn take_section(&mut self, count: usize) -> Result<CaptureItem, ReadFault>
        ensures step { Steps R.remaining (section_step count) result self.old self.new }
        ensures other { IfOk result (λ item. item ≡ CaptureItem.Other) }
    {
        if count < 28 {
            return Err(BAD_LENGTH);
        }
        self.interfaces.clear();
        self.take_other(count)
    }

    /// Reads an interface description.
    fn take_interface(
        &mut self,
        count: usize,
        head: &[u8; LEAST_BLOCK],
    ) -> Result<CaptureItem, ReadFault>
        requires { length self.old.body.items ≡ min (count - 16) MOST_BODY }
        ensures step { Steps R.remaining (interface_step count head.now) result self.old self.new }
        ensures other { IfOk result (λ item. item ≡ CaptureItem.Other) }
    {
        if count < 20 {
            return Err(BAD_LENGTH);
        }
        if self.interfaces.len() == MOST_INTERFACES {
            return Err(ReadFault::Capture(CaptureFault::TooManyInterfaces));
        }
        let link = LinkType::of(self.order.u16_at(8, head));
        let units = units_in(self.order, &self.body.as_slice()[4..]);
        let snap = self.order.u32_at(0, self.body.as_slice());
        self.interfaces.push(Interface { link, units, snap });
        self.take_other(count)
    }

    /// The packet of an enhanced packet block of this length.
    fn enhanced_packet(&self, count: usize, head: &[u8; LEAST_BLOCK]) -> CaptureItem
        requires { length self.now.body.items ≡ min (count - 16) MOST_BODY }
        ensures exact { (left : List ℕ) → result ≡ enhanced_packet count head.now
            (reading_of self.now left) }
        ensures within { IsWithin (length self.now.body.items) result }
    {
        if count < 32 {
            return BAD_PACKET;
        }
        let body = self.body.as_slice();
        let captured = self.order.u32_at(8, body);
        if captured > MOST_PACKET {
            return BAD_PACKET;
        }
        if count - 32 < captured {
            return BAD_PACKET;
        }
        let (interface, original) = (self.order.u32_at(8, head), self.order.u32_at(12, body));
        self.item_on(interface, original, 16, 16 + captured)
    }

    /// When an enhanced packet block of this length was captured.
    fn block_moment(&self, count: usize, head: &[u8; LEAST_BLOCK]) -> Option<u64>
        requires { length self.now.body.items ≡ min (count - 16) MOST_BODY }
        ensures { (left : List ℕ)
            → result ≡ block_moment count head.now (reading_of self.now left) }
    {
        if count < 32 {
            return None;
        }
        let body = self.body.as_slice();
        let (high, low) = (self.order.u32_at(0, body), self.order.u32_at(4, body));
        self.moment_on(self.order.u32_at(8, head), high as u32, low as u32)
    }

    /// How many packets are missing before an enhanced packet block of this length.
    fn block_missing(&self, count: usize) -> u64
        requires { length self.now.body.items ≡ min (count - 16) MOST_BODY }
        ensures { (left : List ℕ) → result ≡ block_missing count (reading_of self.now left) }
    {
        if count < 32 {
            return 0;
        }
        let body = self.body.as_slice();
        let captured = self.order.u32_at(8, body);
        missing_in(self.order, after(16 + padded(captured), body))
    }

    /// The moment of a packet on an interface, from two numbers.
    fn moment_on(&self, interface: usize, high: u32, low: u32) -> Option<u64>
        ensures { result ≡ moment_on (slice_get self.now.interfaces.items interface) high low }
    {
        match self.interfaces.as_slice().get(interface) {
            None => None,
            Some(interface) => {
                interface.moment_of(u64::from(high) * 0x1_0000_0000 + u64::from(low))
            }
        }
    }

    /// The packet of a simple packet block of this length.
    fn simple_packet(&self, count: usize, head: &[u8; LEAST_BLOCK]) -> CaptureItem
        requires { length self.now.body.items ≡ min (count - 16) MOST_BODY }
        ensures exact { (left : List ℕ) → result ≡ simple_packet count head.now
            (reading_of self.now left) }
        ensures within { IsWithin (length self.now.body.items) result }
    {
        if count < 16 {
            return BAD_PACKET;
        }
        let original = self.order.u32_at(8, head);
        let captured = self.snapped(original);
        if captured > MOST_PACKET {
            return BAD_PACKET;
        }
        if count - 16 < captured {
            return BAD_PACKET;
        }
        self.item_on(0, original, 0, captured)
    }

    /// How many octets of a packet of this original length are captured on the first interface.
    fn snapped(&self, original: usize) -> usize
        ensures { result ≡ snapped (slice_get self.now.interfaces.items 0) original }
    {
        match self.interfaces.as_slice().first() {
            None => original,
            Some(interface) => interface.snapped(original),
        }
    }
}

/// The head of the first block: the first four octets of the file, and the eight after them.
fn head_of(magic: [u8; 4], rest: [u8; 8]) -> [u8; LEAST_BLOCK]
    ensures { result ≡ magic ++ rest }
{
    let [a, b, c, d] = magic;
    let [e, f, g, h, i, j, k, l] = rest;
    [a, b, c, d, e, f, g, h, i, j, k, l]
}

/// The byte order of a block with this head.
fn block_order(head: &[u8; LEAST_BLOCK], order: Order) -> Result<Order, CaptureFault>
    ensures { result ≡ block_order head.now order }
{
    if Order::Big.u32_at(0, head) == SECTION {
        order_of_magic(Order::Big.u32_at(8, head))
    } else {
        Ok(order)
    }
}

/// The byte order of a pcap file, by its first four octets.
pub(crate) fn order_of_pcap(magic: usize) -> Option<Order>
    ensures { result ≡ order_of_pcap magic }
{
    match magic {
        0xa1b2_c3d4 | 0xa1b2_3c4d => Some(Order::Big),
        0xd4c3_b2a1 | 0x4d3c_b2a1 => Some(Order::Little),
        _ => None,
    }
}

/// The fault of a file that is no capture, by its first four octets.
fn fault_of_magic(magic: usize) -> CaptureFault
    ensures { result ≡ fault_of_magic magic }
{
    if magic / 0x1_0000 == 0x1f8b {
        CaptureFault::Gzip
    } else {
        CaptureFault::NotACapture
    }
}

/// How many units of time a second of a pcap file has, by its first four octets.
fn units_of_pcap(magic: usize) -> u64
    ensures { result ≡ units_of_pcap magic }
{
    if magic == 0xa1b2_3c4d || magic == 0x4d3c_b2a1 {
        1_000_000_000
    } else {
        1_000_000
    }
}

/// The byte order of a section, by the magic number of its header.
fn order_of_magic(magic: usize) -> Result<Order, CaptureFault>
    ensures { result ≡ order_of_magic magic }
{
    match magic {
        0x1a2b_3c4d => Ok(Order::Big),
        0x4d3c_2b1a => Ok(Order::Little),
        _ => Err(CaptureFault::NotACapture),
    }
}
