// What a crash makes of the writes that are pending. Nothing here needs memory.
ghost use Rattle.std.specs.Prelude.{◌≡◌, ◌≤◌, ◌<◌, ◌+◌, ◌-◌, ◌%◌, [], ◌∷◌, ℕ, length, slice_index};
ghost use Rattle.jp_disk.specs.Images.{IsOutside};
ghost use Rattle.jp_disk.specs.Medium.{ranges_of};

use crate::Call;

/// The image of a file that a crash leaves, as the choice says, of all that was written.
pub fn crash_image(image: &mut Vec<u8>, synced: &[u8], recent: &[Call], choice: u64)
    requires { length synced.now ≤ length image.old.items }
    ensures outside { (place : ℕ) → place < length synced.now → IsOutside (ranges_of recent.now) place → slice_index image.new.items place ≡ slice_index image.old.items place }
    ensures clean { choice ≡ 0 → image.new.items ≡ image.old.items }
    ensures lost_end { length image.new.items + choice % (1 + length image.old.items - length synced.now) ≡ length image.old.items }
{
    if choice == 0 {
        return;
    }
    let ends = (image.len() - synced.len()) as u64 + 1;
    let lost = (choice % ends) as usize;
    tear_writes(image, synced, recent, choice / ends);
    image.truncate(image.len() - lost);
}

// Loses each write of these calls, and then lets each land, whole or in part, in the order of the calls or backwards,
// as the choice says (`MemoryDisk::crash`).
fn tear_writes(image: &mut Vec<u8>, synced: &[u8], calls: &[Call], choice: u64)
    ensures length { length image.new.items ≡ length image.old.items }
    ensures outside { (place : ℕ) → IsOutside (ranges_of calls.now) place → slice_index image.new.items place ≡ slice_index image.old.items place }
{
    lose_writes(image, synced, calls);
    let backwards = choice % 2 == 1;
    let mut rest = choice / 2;
    for k in 0..calls.len() {
        let place = if backwards { calls.len() - 1 - k } else { k };
        rest = land_write(image, &calls[place], rest);
    }
}

fn lose_writes(image: &mut Vec<u8>, synced: &[u8], calls: &[Call])
    ensures length { length image.new.items ≡ length image.old.items }
    ensures outside { (place : ℕ) → IsOutside (ranges_of calls.now) place → slice_index image.new.items place ≡ slice_index image.old.items place }
{
    for call in calls {
        lose_write(image, synced, call);
    }
}

// Puts back what the range of a write held at the last sync, and 0 past the old end.
fn lose_write(image: &mut Vec<u8>, synced: &[u8], call: &Call)
    ensures length { length image.new.items ≡ length image.old.items }
    ensures outside { (place : ℕ) → IsOutside (ranges_of (call.now ∷ [])) place → slice_index image.new.items place ≡ slice_index image.old.items place }
{
    let Call::Write { at, bytes, .. } = call else {
        return;
    };
    let start = *at as usize;
    let end = start.saturating_add(bytes.len()).min(image.len());
    for place in start..end {
        image[place] = synced.get(place).copied().unwrap_or(0);
    }
}

// Writes the bytes of a write but for some at their end or front, which stay as they are or become one byte, and
// answers what is left of the choice.
fn land_write(image: &mut Vec<u8>, call: &Call, choice: u64) -> u64
    ensures length { length image.new.items ≡ length image.old.items }
    ensures outside { (place : ℕ) → IsOutside (ranges_of (call.now ∷ [])) place → slice_index image.new.items place ≡ slice_index image.old.items place }
{
    let Call::Write { at, bytes, .. } = call else {
        return choice;
    };
    let bytes = bytes.as_slice();
    let lengths = bytes.len() as u64 + 1;
    let missing = (choice % lengths) as usize;
    let rest = choice / lengths;
    let from = if rest % 2 == 0 {
        bytes.len() - missing
    } else {
        0
    };
    let garbage = garbage_of(rest / 2 % 4);
    let start = *at as usize;
    for (k, byte) in bytes.iter().enumerate() {
        let place = start.saturating_add(k);
        if place < image.len() {
            if k < from || from + missing <= k {
                image[place] = *byte;
            } else if let Some(value) = garbage {
                image[place] = value;
            }
        }
    }
    rest / 2 / 4
}

// What missing bytes become: an empty byte, an open gate of a journal, or a byte of erased flash.
fn garbage_of(number: u64) -> Option<u8> {
    match number {
        0 => None,
        1 => Some(0),
        2 => Some(1),
        _ => Some(255),
    }
}
