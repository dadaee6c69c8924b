// The faults of names and strings.
ghost use Rattle.std.specs.Prelude.{◌≡◌, ℕ, Bool, List, [], length, take, slice_index_or};
ghost use Rattle.finding.specs.Checks.{passes_unless};
ghost use Rattle.finding.specs.Search.{lowest};
ghost use Rattle.layout.specs.declared.fault.FileFault.TheVariants.{NameLength, NameText, NameRepeated, StringText};
ghost use Rattle.layout.specs.Faults.{place_of, first_among, text_causes};
ghost use Rattle.layout.specs.Readers.{file_of, pending};
ghost use Rattle.layout.specs.Texts.{among, misfit, bad_name};
ghost use Rattle.texts.specs.Tests.{Tests};

use crate::spelling::{is_identifier, is_keyword, is_string_text};
use finding::Finding;
use layout::fault::FileFault;
use layout::items::Items;
use layout::reader::Reader;
use nodes::bytes::{byte, tail};

// The lowest item that fails a test of its number and its bytes.
fn lowest_item<F: Fn(usize, &[u8]) -> bool>(items: Items, fails: F) -> Option<u32>
    requires { F.IsAlwaysCallable fails }
    ensures { (test : ℕ → List ℕ → Bool) → Tests F.Fn fails test → result ≡ lowest (λ k. test k (slice_index_or (pending items.entry) k [])) (length (pending items.entry)) }
{
    items
        .enumerate()
        .position(|(k, item)| fails(k, item))
        .map(|k| k as u32)
}

// Whether item k is cut off, has a length that is not allowed, or is the 256th.
fn is_misfit(least: u8, most: u8, k: usize, item: &[u8]) -> bool
    ensures { result ≡ misfit least most k item.now }
{
    let size = byte(item, 0);
    item.len() < 1 + size as usize || !(least..=most).contains(&size) || k == 255
}

fn is_bad_name(item: &[u8]) -> bool
    ensures { result ≡ bad_name item.now }
{
    let text = tail(item);
    !is_identifier(text) || is_keyword(text)
}

// Whether an item is among the first k of a body.
fn is_among(item: &[u8], items: Items, k: usize) -> bool
    ensures { result ≡ among item.now (take k (pending items.entry)) }
{
    items.take(k).any(|other| item == other)
}

fn name_length_place(reader: &Reader) -> Option<u32>
    ensures { result ≡ place_of NameLength (file_of reader.now) }
{
    lowest_item(reader.names(), |k, item| is_misfit(1, 31, k, item))
}

fn name_text_place(reader: &Reader) -> Option<u32>
    ensures { result ≡ place_of NameText (file_of reader.now) }
{
    lowest_item(reader.names(), |_, item| is_bad_name(item))
}

fn name_repeated_place(reader: &Reader) -> Option<u32>
    ensures { result ≡ place_of NameRepeated (file_of reader.now) }
{
    let names = reader.names();
    lowest_item(names, |k, item| is_among(item, names, k))
}

fn string_text_place(reader: &Reader) -> Option<u32>
    ensures { result ≡ place_of StringText (file_of reader.now) }
{
    lowest_item(reader.strings(), |k, item| {
        is_misfit(0, 63, k, item) || !is_string_text(tail(item))
    })
}

/// Checks the names and strings; it fails with their first fault: of the first cause that applies, the lowest place.
pub fn check(reader: &Reader) -> Result<(), Finding<FileFault>>
    ensures { result ≡ passes_unless (first_among text_causes (file_of reader.now)) }
{
    Finding::absent(FileFault::NameLength, name_length_place(reader))?;
    Finding::absent(FileFault::NameText, name_text_place(reader))?;
    Finding::absent(FileFault::NameRepeated, name_repeated_place(reader))?;
    Finding::absent(FileFault::StringText, string_text_place(reader))
}
