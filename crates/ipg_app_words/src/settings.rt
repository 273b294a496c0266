//! The values of options, and of a number of parts.
ghost use Rattle.std.specs.Prelude.{◌≡◌, ◌≤◌, option_map, Some};
ghost use Rattle.ipg_app_words.specs.Settings.{memo_in, mib_in, count_in, number_in, most_count, within};
ghost use Rattle.ipg_app_words.specs.Seen.{is_unsigned};

use crate::asking::Memo;

const DEFAULT_MIB: u32 = 512;

const MOST_MIB: u32 = 4096;

/// `on` or `off`; on where nothing is said.
pub fn memo(text: Option<&str>) -> Option<Memo>
    ensures { result ≡ memo_in (option_map (λ text. text.now) text.entry) }
{
    match text {
        None => Some(Memo::On),
        Some(text) => {
            if text == "on" {
                return Some(Memo::On);
            }
            if text == "off" {
                return Some(Memo::Off);
            }
            None
        }
    }
}

/// A number of MiB; the default where nothing is said.
pub fn mib(text: Option<&str>) -> Option<u32>
    ensures { result ≡ mib_in (option_map (λ text. text.now) text.entry) }
{
    match text {
        None => Some(DEFAULT_MIB),
        Some(text) => number(text, 1, MOST_MIB),
    }
}

/// A number of parts.
pub fn count(text: &str) -> Option<u32>
    ensures { result ≡ count_in text.now }
{
    number(text, 0, u32::MAX)
}

/// Whether no sign stands first that the standard library would read over.
fn is_unsigned(text: &str) -> bool
    ensures { result ≡ is_unsigned text.now }
{
    match text.as_bytes().first() {
        Some(first) => *first != b'+',
        None => true,
    }
}

/// A number from the least to the most, in decimal digits without a sign.
fn number(text: &str, least: u32, most: u32) -> Option<u32>
    requires { most ≤ most_count }
    ensures { result ≡ number_in least most text.now }
{
    if !is_unsigned(text) {
        return None;
    }
    match text.parse::<u32>() {
        Ok(number) => within(number, least, most),
        Err(_) => None,
    }
}

fn within(number: u32, least: u32, most: u32) -> Option<u32>
    ensures { result ≡ within least most number }
{
    if least <= number && number <= most {
        Some(number)
    } else {
        None
    }
}
