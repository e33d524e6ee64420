//! Writing bits into bytes.

ghost use Rattle.std.specs.Prelude.{◌≡◌, ◌+◌, ◌-◌, ◌*◌, ◌<◌, ◌≤◌, ◌^◌, ◌++◌, [], List, OnOk, IsOk, drop, filter, int_lt, length, vec_len};
ghost use Rattle.std.specs.Vec.{vec_capacity};
ghost use Rattle.xor_chunk.specs.declared.sample.Sample.{Sample as ASample};
ghost use Rattle.hw_bytes.specs.Spellings.{IsBytes};
ghost use Rattle.xor_chunk.specs.Bits.{bits_of, bits_in};
ghost use Rattle.xor_chunk.specs.Private.{IsBodyOf, IsEnded, IsMoved, IsWord};

use crate::chunk_reader::{ChunkReader, count_before};
use crate::facts::are_bytes;
use arrayvec::ArrayVec;
use std::alloc::{AllocError, Global};
use std::marker::Model;

// How many bytes wait in the writer itself before they are put behind the others, so that most samples write nowhere else.
const STAGED: usize = 32;

// Appends the bytes that wait, for which there is memory.
#[inline(never)]
fn append_staged(bytes: &mut Vec<u8>, staged: &ArrayVec<u8, 32>)
    requires { vec_len bytes.old + length staged.now.items ≤ vec_capacity bytes.old }
    ensures items { bytes.new.items ≡ bytes.old.items ++ staged.now.items }
    ensures len { vec_len bytes.new ≡ vec_len bytes.old + length staged.now.items }
    ensures capacity { vec_capacity bytes.old ≤ vec_capacity bytes.new }
{
    let _ = bytes.extend_from_slice(staged.as_slice());
}

// Appends the bytes that wait one by one, for which there is memory. The memory is no more than it was.
fn copy_staged(bytes: &mut Vec<u8>, staged: &ArrayVec<u8, 32>)
    requires { vec_len bytes.old + length staged.now.items ≤ vec_capacity bytes.old }
    ensures items { bytes.new.items ≡ bytes.old.items ++ staged.now.items }
    ensures len { vec_len bytes.new ≡ vec_len bytes.old + length staged.now.items }
    ensures capacity { vec_capacity bytes.new ≡ vec_capacity bytes.old }
{
    for byte in staged.as_slice() {
        bytes.push_reserved(*byte);
    }
}

// Makes place for four bytes among those that wait: where there is none, puts all of them behind the others, for which there is memory.
#[inline(always)]
fn make_place(bytes: &mut Vec<u8>, staged: &mut ArrayVec<u8, 32>)
    requires { vec_len bytes.old + length staged.old.items ≤ vec_capacity bytes.old }
    ensures moved { IsMoved bytes.old.items staged.old.items bytes.new.items staged.new.items }
    ensures place { length staged.new.items + 4 ≤ 32 }
    ensures len { vec_len bytes.new + length staged.new.items ≡ vec_len bytes.old + length staged.old.items }
    ensures capacity { vec_capacity bytes.old ≤ vec_capacity bytes.new }
{
    if staged.len() <= STAGED - 4 {
        return;
    }
    append_staged(bytes, staged);
    staged.clear();
}

// Appends the highest four bytes of so many bits.
#[inline(always)]
fn put_word(staged: &mut ArrayVec<u8, 32>, held: u64, count: u32)
    requires some { 32 ≤ count }
    requires few { count ≤ 64 }
    requires place { length staged.old.items + 4 ≤ 32 }
    ensures put { IsWord staged.old.items staged.new.items count held }
    ensures len { length staged.new.items ≡ length staged.old.items + 4 }
{
    staged.push(((held >> (count - 8)) % 256) as u8);
    staged.push(((held >> (count - 16)) % 256) as u8);
    staged.push(((held >> (count - 24)) % 256) as u8);
    staged.push(((held >> (count - 32)) % 256) as u8);
}

// Appends so many bits, and fills the last byte with zeros. If `whole` is set there is at least one zero: where the bits end with a byte, an
// empty byte follows.
fn put_last(bytes: &mut Vec<u8>, held: u64, count: u32, whole: bool)
    requires few { count < 32 }
    requires fits { held < 2 ^ count }
    requires room { 8 * vec_len bytes.old + count + 8 ≤ 8 * vec_capacity bytes.old }
    ensures ended { IsEnded bytes.old.items bytes.new.items whole (bits_of count held) }
    ensures len { 8 * vec_len bytes.new ≤ 8 * vec_len bytes.old + count + 8 }
    ensures capacity { vec_capacity bytes.new ≡ vec_capacity bytes.old }
{
    let mut left = count;
    while left >= 8 {
        left -= 8;
        bytes.push_reserved(((held >> left) % 256) as u8);
    }
    if left > 0 || whole {
        bytes.push_reserved(((held % (1 << left)) << (8 - left)) as u8);
    }
}

// Bits behind other bytes. The last of them wait until they fill a word, and the last words until there are some.
#[derive(Debug, Drop)]
pub(crate) struct BitWriter {
    bytes: Vec<u8>,
    // Where the bits begin.
    start: usize,
    staged: ArrayVec<u8, 32>,
    held: u64,
    count: u32,
}

impl Model for BitWriter {
    ghost use Rattle.std.specs.Prelude.{◌+◌, ◌-◌, ◌*◌, ◌<◌, ◌≤◌, ◌^◌, ◌++◌, drop, length, take, vec_len};
    ghost use Rattle.std.specs.Vec.{vec_capacity};
    ghost use Rattle.xor_chunk.specs.Bits.{bits_of, bits_in};
    ghost use Rattle.xor_chunk.specs.Writing.{BitsValue};

    ghost Value = { BitsValue };

    ghost view = { λ w. record {
      front = take w.start w.bytes.items;
      bits = bits_in (drop w.start w.bytes.items ++ w.staged.items) ++ bits_of w.count w.held;
      room = 8 * (vec_capacity w.bytes - (vec_len w.bytes + length w.staged.items)) - w.count;
    } };

    ghost invariant = { λ w. (w.count < 32) × (w.held < 2 ^ w.count) × (w.start ≤ vec_len w.bytes) × (vec_len w.bytes + length w.staged.items ≤ vec_capacity w.bytes) };
}

impl BitWriter {
    // Goes on behind these bytes.
    pub(crate) fn behind(bytes: Vec<u8>) -> BitWriter
        ensures front { result.front ≡ bytes.items }
        ensures none { result.bits ≡ [] }
    {
        let start = bytes.len();
        BitWriter {
            bytes,
            start,
            staged: ArrayVec::new(),
            held: 0,
            count: 0,
        }
    }

    // Borrows the bytes before the bits.
    pub(crate) fn front(&self) -> &[u8]
        ensures { result.now ≡ self.now.front }
    {
        let (front, _) = self.bytes.split_at(self.start);
        front
    }

    // Allocates memory for so many bits more, and for half as many as there are. Returns an error if out of memory; nothing is lost then.
    pub(crate) fn reserve(&mut self, bits: usize) -> Result<(), AllocError>
        requires some { 0 < bits }
        requires few { bits ≤ 2 ^ 62 }
        ensures front { self.new.front ≡ self.old.front }
        ensures bits { self.new.bits ≡ self.old.bits }
        ensures room { self.old.room ≤ self.new.room }
        ensures reserved { OnOk result (bits ≤ self.new.room) }
        ensures had { bits ≤ self.old.room → IsOk result }
    {
        let wanted = (bits + self.count as usize).div_ceil(8) + self.staged.len();
        if wanted <= self.bytes.capacity() - self.bytes.len() {
            return Ok(());
        }
        self.bytes.reserve_exact(wanted.max(self.bytes.len() / 2))
    }

    // Drops the first bytes of those before the bits.
    pub(crate) fn drop_front(&mut self, len: usize)
        requires { len ≤ length self.old.front }
        ensures front { self.new.front ≡ drop len self.old.front }
        ensures bits { self.new.bits ≡ self.old.bits }
        ensures room { self.old.room ≤ self.new.room }
    {
        self.bytes.drain(..len);
        self.start -= len;
    }

    // Drops the bits.
    pub(crate) fn clear(&mut self)
        ensures front { self.new.front ≡ self.old.front }
        ensures none { self.new.bits ≡ [] }
        ensures room { self.old.room ≤ self.new.room }
    {
        self.bytes.truncate(self.start);
        self.staged.clear();
        self.held = 0;
        self.count = 0;
    }

    // Returns how many of a chunk's samples are before a time. The bits are those of its body, of so many samples.
    pub(crate) fn count_before(&mut self, whole: bool, count: usize, time: i64) -> usize
        requires room { 8 ≤ self.old.room }
        ensures same { self.new ≡ self.old }
        ensures count { (all : List ASample) → IsBodyOf all count whole self.old.bits → result ≡ length (filter (λ s. int_lt s.time time) all) }
    {
        let len = self.bytes.len();
        copy_staged(&mut self.bytes, &self.staged);
        put_last(&mut self.bytes, self.held, self.count, whole);
        are_bytes(&self.bytes);
        let (_, body) = self.bytes.split_at(self.start);
        let before = count_before(ChunkReader::new(count, body), time);
        self.bytes.truncate(len);
        before
    }

    // Appends a number of so many bits.
    #[inline(always)]
    pub(crate) fn push(&mut self, number: u64, count: u32)
        requires few { count ≤ 32 }
        requires fits { number < 2 ^ count }
        requires room { count ≤ self.old.room }
        ensures bits { self.new.bits ≡ self.old.bits ++ bits_of count number }
        ensures front { self.new.front ≡ self.old.front }
        ensures room { self.old.room ≤ self.new.room + count }
    {
        let held = (self.held << count) + number;
        let all = self.count + count;
        if all < 32 {
            self.held = held;
            self.count = all;
            return;
        }
        make_place(&mut self.bytes, &mut self.staged);
        put_word(&mut self.staged, held, all);
        self.count = all - 32;
        self.held = held % (1 << self.count);
    }

    // Appends a number of so many bits.
    #[inline(always)]
    pub(crate) fn push_long(&mut self, number: u64, count: u32)
        requires few { count ≤ 64 }
        requires fits { number < 2 ^ count }
        requires room { count ≤ self.old.room }
        ensures bits { self.new.bits ≡ self.old.bits ++ bits_of count number }
        ensures front { self.new.front ≡ self.old.front }
        ensures room { self.old.room ≤ self.new.room + count }
    {
        if count > 32 {
            self.push(number >> 32, count - 32);
            self.push(number % (1 << 32), 32);
            return;
        }
        self.push(number, count);
    }

    // Appends these bits to other bytes, as `end` ends them. Returns an error if out of memory.
    pub(crate) fn copy_ended(&self, whole: bool, bytes: &mut Vec<u8>) -> Result<(), AllocError>
        ensures ended { OnOk result (IsEnded bytes.old.items bytes.new.items whole self.now.bits) }
        ensures small { OnOk result (IsBytes bytes.new.items) }
    {
        let (_, behind) = self.bytes.split_at(self.start);
        bytes.reserve_exact(behind.len() + self.staged.len() + 5)?;
        bytes.extend_from_slice(behind)?;
        append_staged(bytes, &self.staged);
        put_last(bytes, self.held, self.count, whole);
        are_bytes(bytes);
        Ok(())
    }

    // Fills the last byte with zeros: the bits are bytes then, and others can begin behind them. If `whole` is set there is at least one
    // zero: where the bits end with a byte, an empty byte follows.
    pub(crate) fn end(&mut self, whole: bool)
        requires room { 8 ≤ self.old.room }
        ensures ended { IsEnded self.old.front self.new.front whole self.old.bits }
        ensures small { IsBytes self.new.front }
        ensures none { self.new.bits ≡ [] }
        ensures room { self.old.room ≤ self.new.room + 8 }
    {
        append_staged(&mut self.bytes, &self.staged);
        put_last(&mut self.bytes, self.held, self.count, whole);
        are_bytes(&self.bytes);
        self.start = self.bytes.len();
        self.staged.clear();
        self.held = 0;
        self.count = 0;
    }

    // Returns the bytes before the bits, which are lost.
    pub(crate) fn into_front(self) -> Vec<u8>
        ensures { result.items ≡ self.front }
    {
        let BitWriter {
            mut bytes,
            start,
            staged: _,
            held: _,
            count: _,
        } = self;
        bytes.truncate(start);
        bytes
    }
}
