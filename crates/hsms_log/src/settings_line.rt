//! The first line of a log.

ghost use Rattle.std.specs.Prelude.{◌≡◌, ◌≤◌, ◌↔◌, ℕ, Option, Some, None, IsSome, IfSome, IfNone, option_map};
ghost use Rattle.hsms_machine.specs.Settings.{Parameters, IsWithinLimits};
ghost use Rattle.hsms_log.specs.LineFormat.{EncodesSettings};
ghost use Rattle.hsms_log.specs.InnerReading.{role_of, link_of, version_at as version_and_rest, end_at as end_and_rest, times_at as times_and_rest, limits_of as limits_in, u32_at as u32_and_rest, settings_at};
ghost use Rattle.hsms_log.specs.InnerSettingsFields.{IsOf};

use crate::number::{after_prefix, number, number_at, word_at};
use hsms_machine::{Role, Settings, Side};

/// Returns the settings that the first line of a log encodes. Returns `None` if it encodes none: other words, a version
/// other than 1 and 2, a number outside its limits, or more than 256 bytes. The line is passed without its end.
pub fn read_settings(line: &[u8]) -> Option<Settings>
    ensures found { IfSome result (EncodesSettings line.now) }
    ensures none { IfNone result ((settings : Parameters) → EncodesSettings line.now settings → ⊥) }
{
    let (version, settings) = version_and_settings(line)?;
    of_version(version, settings?)
}

/// Returns the same numbers for a log of this version, if there is such a version.
fn of_version(version: u8, settings: Settings) -> Option<Settings>
    ensures within { IsSome result ↔ (1 ≤ version) × (version ≤ 2) }
    ensures value { IfSome result (λ s. settings.version ≡ 1 → s ≡ record settings { version = version }) }
{
    match version {
        1 => Some(settings),
        2 => Some(settings.several()),
        _ => None,
    }
}

/// Returns the version in a first line, and its settings for a log of one connection. These are `None` if a number is
/// outside its limits.
#[tactic(auto, unfolding(crate::specs::InnerReading::settings_at))]
fn version_and_settings(line: &[u8]) -> Option<(u8, Option<Settings>)>
    ensures found { (x : ℕ × Option Parameters) → result ≡ Some x → (p : Parameters) × (settings_at line.now ≡ Some p) × IsOf p x.0 x.1 }
    ensures none { result ≡ None → settings_at line.now ≡ None }
{
    let (version, rest) = version_at(line)?;
    let (role, link, device, rest) = end_at(rest)?;
    let (t3, t6, t7, t8, rest) = times_at(rest)?;
    let (max, depth) = limits_of(rest)?;
    let settings = Settings::new(role, link, device, t3, t6, t7, t8, max, depth);
    Some((version, settings))
}

/// Returns the version, and what follows it.
#[tactic(auto, unfolding(crate::specs::InnerReading::version_at))]
fn version_at(line: &[u8]) -> Option<(u8, &[u8])>
    ensures { option_map (λ x. (x.0, x.1.now)) result ≡ version_and_rest line.now }
{
    let rest = after_prefix(line, b"hsms-log ")?;
    let (version, rest) = number_at(rest)?;
    let version = u8::try_from(version).ok()?;
    Some((version, rest))
}

/// Returns the role, the side and the device ID of an endpoint, and what follows them.
#[tactic(auto, unfolding(crate::specs::InnerReading::end_at))]
fn end_at(text: &[u8]) -> Option<(Role, Side, u16, &[u8])>
    ensures { option_map (λ x. (x.0, x.1, x.2, x.3.now)) result ≡ end_and_rest text.now }
{
    let (role, text) = word_at(text)?;
    let role = read_role(role)?;
    let (link, text) = word_at(text)?;
    let link = read_link(link)?;
    let (device, text) = number_at(text)?;
    Some((role, link, u16::try_from(device).ok()?, text))
}

#[tactic(auto, unfolding(crate::specs::InnerReading::role_of))]
pub fn read_role(word: &[u8]) -> Option<Role>
    ensures { result ≡ role_of word.now }
{
    if word == b"host".as_slice() {
        Some(Role::Host)
    } else if word == b"equipment".as_slice() {
        Some(Role::Equipment)
    } else {
        None
    }
}

#[tactic(auto, unfolding(crate::specs::InnerReading::link_of))]
pub fn read_link(word: &[u8]) -> Option<Side>
    ensures { result ≡ link_of word.now }
{
    if word == b"active".as_slice() {
        Some(Side::Active)
    } else if word == b"passive".as_slice() {
        Some(Side::Passive)
    } else {
        None
    }
}

/// Returns the four times, and what follows them.
#[tactic(auto, unfolding(crate::specs::InnerReading::times_at))]
fn times_at(text: &[u8]) -> Option<(u32, u32, u32, u32, &[u8])>
    ensures { option_map (λ x. (x.0, x.1, x.2, x.3, x.4.now)) result ≡ times_and_rest text.now }
{
    let (t3, text) = u32_at(text)?;
    let (t6, text) = u32_at(text)?;
    let (t7, text) = u32_at(text)?;
    let (t8, text) = u32_at(text)?;
    Some((t3, t6, t7, t8, text))
}

/// Returns the maximum length of a message, and the maximum depth of items.
#[tactic(auto, unfolding(crate::specs::InnerReading::limits_of))]
fn limits_of(text: &[u8]) -> Option<(u32, u8)>
    ensures { result ≡ limits_in text.now }
{
    let (max, text) = u32_at(text)?;
    Some((max, u8::try_from(number(text)?).ok()?))
}

/// Returns a number of 32 bits, and what follows it.
#[tactic(auto, unfolding(crate::specs::InnerReading::u32_at))]
fn u32_at(text: &[u8]) -> Option<(u32, &[u8])>
    ensures { option_map (λ x. (x.0, x.1.now)) result ≡ u32_and_rest text.now }
{
    let (number, text) = number_at(text)?;
    Some((u32::try_from(number).ok()?, text))
}
