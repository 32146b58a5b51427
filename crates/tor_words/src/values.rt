//! The values of options.
ghost use Rattle.std.specs.Prelude.{◌≡◌, ◌≤◌, IfSome, option_map};
ghost use Rattle.tor_words.specs.Given.{number_in, short_number, number_or, order_or_seen, sets_or_cut, is_true_text};

use path_clean::Sets;
use path_order::Order;

/// The number of the text, where it lies within the bounds.
pub(crate) fn number_in(text: &str, low: u64, high: u64) -> Option<u64>
    ensures value { result ≡ number_in low high text.now }
    ensures within { IfSome result (λ number. (low ≤ number) × (number ≤ high)) }
{
    match text.parse::<u64>() {
        Ok(number) => {
            if low <= number && number <= high {
                Some(number)
            } else {
                None
            }
        }
        Err(_) => None,
    }
}

/// The number of an AS or of a path.
pub(crate) fn short_number(text: &str) -> Option<u32>
    ensures { result ≡ short_number text.now }
{
    match number_in(text, 0, 4_294_967_295) {
        Some(number) => Some(number as u32),
        None => None,
    }
}

/// The number of the text within the bounds, or the default where there is no text.
pub(crate) fn number_or(text: Option<&str>, low: u64, high: u64, default: u64) -> Option<u64>
    requires low { low ≤ default }
    requires high { default ≤ high }
    ensures value { result ≡ number_or low high default (option_map (λ s. s.now) text.entry) }
    ensures within { IfSome result (λ number. (low ≤ number) × (number ≤ high)) }
{
    match text {
        None => Some(default),
        Some(text) => number_in(text, low, high),
    }
}

/// The way with sets, cut where there is no text.
pub(crate) fn sets_or_cut(text: Option<&str>) -> Option<Sets>
    ensures { result ≡ sets_or_cut (option_map (λ s. s.now) text.entry) }
{
    match text {
        None => Some(Sets::Cut),
        Some(text) => {
            if text == "cut" {
                Some(Sets::Cut)
            } else if text == "skip" {
                Some(Sets::Skip)
            } else {
                None
            }
        }
    }
}

/// The order of distinct paths, as seen where there is no text.
pub(crate) fn order_or_seen(text: Option<&str>) -> Option<Order>
    ensures { result ≡ order_or_seen (option_map (λ s. s.now) text.entry) }
{
    match text {
        None => Some(Order::Seen),
        Some(text) => {
            if text == "seen" {
                Some(Order::Seen)
            } else if text == "short" {
                Some(Order::Short)
            } else {
                None
            }
        }
    }
}

/// Whether a flag is set.
pub(crate) fn is_true_text(text: Option<&str>) -> bool
    ensures { result ≡ is_true_text (option_map (λ s. s.now) text.entry) }
{
    match text {
        None => false,
        Some(text) => text == "true",
    }
}
