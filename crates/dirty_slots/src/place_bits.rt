// A set of places, as a bit for each, from which the first is found at once.
ghost use Rattle.std.specs.Prelude.{◌≡◌, ◌≢◌, ◌↔◌, ◌*◌, ◌/◌, ◌<◌, ◌≤◌, ◌^◌, ◌&&◌, ◌||◌, ℕ, false, not, nat_eq, All, length, get_or, IfOk, IsTrue, OnOk};
ghost use Rattle.std.specs.Int.{bit_at};
ghost use Rattle.dirty_slots.specs.PlaceBits.{has_place, is_one, IsFromLeast};

use fact_values::NoMemory;
use std::alloc::Global;
use std::marker::Model;

/// A set of places.
#[derive(Drop)]
pub struct PlaceBits {
    words: Vec<u64>,
    /// Each word before this one is 0.
    least: usize,
}

impl Model for PlaceBits {
    ghost use Rattle.dirty_slots.specs.PlaceBits.{IsFromLeast, Words};

    ghost Value = { Words };

    ghost view = { λ bits. bits.words.items };

    ghost invariant = { λ bits. IsFromLeast bits.words.items bits.least };
}

impl PlaceBits {
    /// No place is in it. There is a bit for so many.
    pub fn new(alloc: Global, places: usize) -> Result<PlaceBits, NoMemory>
        requires { places < 2 ^ 63 }
        ensures none { IfOk result (λ bits. (i : ℕ) → has_place bits i ≡ false) }
        ensures bits { IfOk result (λ bits. places ≤ length bits * 64) }
    {
        let words = vec![in alloc; 0; places / 64 + 1]?;
        Ok(PlaceBits { words, least: 0 })
    }

    /// No place has a bit.
    pub fn empty(alloc: Global) -> PlaceBits
        ensures { (i : ℕ) → has_place result i ≡ false }
    {
        PlaceBits {
            words: Vec::new(alloc),
            least: 0,
        }
    }

    /// Whether a place has a bit.
    #[inline(always)]
    pub fn has_bit(&self, place: usize) -> bool
        ensures { IsTrue result ↔ (place < length self.now * 64) }
    {
        place / 64 < self.words.len()
    }

    /// Gives a place a bit, and those before it.
    #[inline(always)]
    pub fn reach(&mut self, place: usize) -> Result<(), NoMemory>
        requires { place < 2 ^ 63 }
        ensures places { (i : ℕ) → has_place self.new i ≡ has_place self.old i }
        ensures bits { OnOk result (place < length self.new * 64) }
    {
        if self.has_bit(place) {
            return Ok(());
        }
        self.words.resize(place / 64 + 1, 0)?;
        Ok(())
    }

    /// No place is in it any more.
    pub fn clear(&mut self)
        ensures none { (i : ℕ) → has_place self.new i ≡ false }
        ensures bits { length self.new ≡ length self.old }
    {
        self.words.fill(0);
        self.least = 0;
    }

    /// Puts a place into it.
    #[inline(always)]
    pub fn insert(&mut self, place: usize)
        requires { place < length self.old * 64 }
        ensures places { (i : ℕ) → has_place self.new i ≡ (nat_eq i place || has_place self.old i) }
        ensures bits { length self.new ≡ length self.old }
    {
        set_place(&mut self.words, place);
        self.least = self.least.min(place / 64);
    }

    /// Puts these places into it.
    pub fn insert_all(&mut self, places: &[u32])
        requires { All (λ p. p < length self.old * 64) places.now }
        ensures places { (i : ℕ) → has_place self.new i ≡ (is_one places.now i || has_place self.old i) }
        ensures bits { length self.new ≡ length self.old }
    {
        self.least = set_places(&mut self.words, self.least, places);
    }

    /// Takes a place out of it.
    pub fn remove(&mut self, place: usize)
        requires { place < length self.old * 64 }
        ensures places { (i : ℕ) → has_place self.new i ≡ (has_place self.old i && not (nat_eq i place)) }
        ensures bits { length self.new ≡ length self.old }
    {
        let at = place / 64;
        self.words[at] = without_bit(self.words[at], (place % 64) as u32);
        self.least = self.least.min(at);
    }

    /// The first place in it, or one behind all that have a bit.
    pub fn first(&mut self) -> usize
        ensures none_before { (i : ℕ) → i < result → has_place self.old i ≡ false }
        ensures first { result < length self.old * 64 → IsTrue (has_place self.old result) }
        ensures unchanged { self.new ≡ self.old }
    {
        let at = least_word(&self.words, self.least);
        self.least = at;
        first_bit(&self.words, at)
    }
}

// Sets the bit of a place.
#[inline(always)]
fn set_place(words: &mut [u64], place: usize)
    requires { place < length words.old * 64 }
    ensures places { (i : ℕ) → has_place words.new i ≡ (nat_eq i place || has_place words.old i) }
    ensures others { (w : ℕ) → w ≢ place / 64 → get_or words.new w 0 ≡ get_or words.old w 0 }
    ensures bits { length words.new ≡ length words.old }
{
    let at = place / 64;
    words[at] = with_bit(words[at], (place % 64) as u32);
}

// Sets the bits of these places, and gives a word before which each is 0 then.
fn set_places(words: &mut [u64], least: usize, places: &[u32]) -> usize
    requires least { IsFromLeast words.old least }
    requires within { All (λ p. p < length words.old * 64) places.now }
    ensures least { IsFromLeast words.new result }
    ensures places { (i : ℕ) → has_place words.new i ≡ (is_one places.now i || has_place words.old i) }
    ensures bits { length words.new ≡ length words.old }
{
    let mut least = least;
    for place in places {
        let place = *place as usize;
        set_place(words, place);
        least = least.min(place / 64);
    }
    least
}

#[inline(always)]
fn with_bit(word: u64, k: u32) -> u64
    requires { k < 64 }
    ensures set { bit_at result k ≡ 1 }
    ensures others { (i : ℕ) → i ≢ k → bit_at result i ≡ bit_at word i }
{
    word | (1 << k)
}

#[inline(always)]
fn without_bit(word: u64, k: u32) -> u64
    requires { k < 64 }
    ensures clear { bit_at result k ≡ 0 }
    ensures others { (i : ℕ) → i < 64 → i ≢ k → bit_at result i ≡ bit_at word i }
{
    word & !(1 << k)
}

fn lowest_bit(word: u64) -> u32
    requires { 0 < word }
    ensures bound { result < 64 }
    ensures set { bit_at word result ≡ 1 }
    ensures none_before { (k : ℕ) → k < result → bit_at word k ≡ 0 }
{
    word.trailing_zeros()
}

// The place of the first bit from a word on, and one behind all where there is no such word.
#[tactic(auto, using(crate::proofs::BitLaws::clear_before, crate::proofs::BitLaws::clear_past, crate::proofs::BitLaws::first_there))]
fn first_bit(words: &[u64], at: usize) -> usize
    requires clear { (w : ℕ) → w < at → get_or words.now w 0 ≡ 0 }
    requires within { at ≤ length words.now }
    requires few { length words.now ≤ 2 ^ 57 }
    requires some { at < length words.now → 0 < get_or words.now at 0 }
    ensures none_before { (i : ℕ) → i < result → has_place words.now i ≡ false }
    ensures first { result < length words.now * 64 → IsTrue (has_place words.now result) }
{
    if at < words.len() {
        at * 64 + lowest_bit(words[at]) as usize
    } else {
        at * 64
    }
}

// The first word that isn't 0, from one on before which all are; their number where each is.
fn least_word(words: &[u64], from: usize) -> usize
    requires clear { (w : ℕ) → w < from → get_or words.now w 0 ≡ 0 }
    requires within { from ≤ length words.now }
    ensures clear { (w : ℕ) → w < result → get_or words.now w 0 ≡ 0 }
    ensures within { result ≤ length words.now }
    ensures some { result < length words.now → 0 < get_or words.now result 0 }
{
    let mut at = from;
    while at < words.len() && words[at] == 0 {
        at += 1;
    }
    at
}
