//! The settings file: the code rate and the limit of the circular buffer, as TOML text.

ghost use Rattle.std.specs.Prelude.{◌≡◌, ◌^◌, ◌<◌, option_map, IfSome, IsErrOf};
ghost use Rattle.std.specs.{List.list_all, Map.keys_of, String.string_bytes};
ghost use Rattle.toml.specs.{Data.get_member, View.view, View.table_view};
ghost use Rattle.nr_refusal.specs.Refusal.{Gives, FailsAs};
ghost use Rattle.nr_streams.specs.Source.{TookAtMost};
ghost use Rattle.nr_files.specs.Settings.{is_known, limit_of, number_in, settings_of, settings_said};

use nr_streams::{ReadFault, Source, read_to_end};
use nr_transmission::Settings;
use std::alloc::Global;
use thiserror::Error;
use toml::{Table, Value};

/// The largest size of a settings file, in octets.
pub const MOST_OCTETS: usize = 65_536;

/// Why a settings file is rejected.
#[derive(Clone, Copy, Debug, PartialEq, Eq, Error)]
pub enum SettingsFault {
    /// The file could not be read.
    #[error("Read")]
    Read,
    /// The file has more than 65,536 octets.
    #[error("TooLong")]
    TooLong,
    /// The text is not TOML.
    #[error("Toml")]
    Toml,
    /// There is a key other than `rate2048` and `lbrm`.
    #[error("Unknown")]
    Unknown,
    /// The key `rate2048` is missing.
    #[error("Missing")]
    Missing,
    /// A value is not an integer.
    #[error("Kind")]
    Kind,
    /// An integer is out of range.
    #[error("Range")]
    Range,
    /// Memory ran out.
    #[error("Memory")]
    Memory,
}

// Whether a key is that of a setting.
fn is_known(key: &String) -> bool
    ensures { result ≡ is_known (string_bytes key.now) }
{
    key.as_str() == "rate2048" || key.as_str() == "lbrm"
}

// Whether each key of a table is that of a setting.
fn all_known(table: &Table) -> bool
    ensures { result ≡ list_all (λ key. is_known (string_bytes key)) (keys_of table.now.entries) }
{
    table.keys().all(is_known)
}

// The value at a key.
fn value_at<'a>(table: &'a Table, key: &str) -> Option<&'a Value>
    ensures { option_map (λ v. view v.now) result ≡ get_member key.now (table_view table.now) }
{
    table.get(key)
}

// The integer of a value, from `low` to `high`.
fn number_in(value: &Value, low: u32, high: u32) -> Result<u32, SettingsFault>
    ensures { result ≡ number_in low high (view value.now) }
{
    let Value::Integer(number) = value else {
        return Err(SettingsFault::Kind);
    };
    match u32::try_from(*number) {
        Ok(number) if low <= number && number <= high => Ok(number),
        _ => Err(SettingsFault::Range),
    }
}

// The limit of the buffer, if there is a value.
fn limit_of(value: Option<&Value>) -> Result<Option<u32>, SettingsFault>
    ensures { result ≡ limit_of (option_map (λ v. view v.now) value.entry) }
{
    match value {
        Some(value) => Ok(Some(number_in(value, 0, u32::MAX)?)),
        None => Ok(None),
    }
}

// The settings of a table.
#[tactic(auto, using(crate::proofs::SettingsFacts::known_keys), unfolding(crate::specs::Settings::settings_of))]
fn settings_of(table: &Table) -> Result<Settings, SettingsFault>
    ensures { result ≡ settings_of (table_view table.now) }
{
    if !all_known(table) {
        return Err(SettingsFault::Unknown);
    }
    let Some(rate) = value_at(table, "rate2048") else {
        return Err(SettingsFault::Missing);
    };
    let rate2048 = number_in(rate, 1, 2048)?;
    let lbrm = limit_of(value_at(table, "lbrm"))?;
    Ok(Settings { rate2048, lbrm })
}

// The settings of a text.
fn parse_settings(alloc: Global, text: &[u8]) -> Result<Settings, SettingsFault>
    ensures { Gives SettingsFault.Memory (λ settings. settings) result (settings_said text.now) }
{
    if text.len() > MOST_OCTETS {
        return Err(SettingsFault::TooLong);
    }
    match toml::table_from_slice(alloc, text) {
        Ok(table) => settings_of(&table),
        Err(error) if error.is_memory() => Err(SettingsFault::Memory),
        Err(_) => Err(SettingsFault::Toml),
    }
}

/// Reads a settings file to its end and checks it: TOML with the integer `rate2048`, which is the target code rate times
/// 2048, 1..=2048. If the circular buffer is limited, it also has the integer `lbrm`, which is TBS_LBRM in bits (TS
/// 38.212, 5.4.2.1), 0..=4,294,967,295.
///
/// # Errors
///
/// `Read` if a pull failed or `TooLong`, whichever is met first; then `Toml`; `Unknown`; `Missing`; `Kind` and `Range`
/// of `rate2048`; `Kind` and `Range` of `lbrm`. `Memory` if memory runs out.
pub fn read_settings<S: Source>(alloc: Global, source: &mut S) -> Result<Settings, SettingsFault>
    requires { S.failures source.old < 2 ^ 32 }
    ensures said { S.failures source.new ≡ S.failures source.old → IfSome (S.remaining source.old)
        (λ octets. Gives SettingsFault.Memory (λ settings. settings) result
        (settings_said octets)) }
    ensures first { IsErrOf result SettingsFault.Read
        → TookAtMost 65536 (S.remaining source.old) (S.remaining source.new) }
    ensures pulled { FailsAs SettingsFault.Read result
        (S.failures source.old) (S.failures source.new) }
{
    let octets = match read_to_end(alloc, source, MOST_OCTETS) {
        Ok(octets) => octets,
        Err(ReadFault::Broken) => return Err(SettingsFault::Read),
        Err(ReadFault::TooLong) => return Err(SettingsFault::TooLong),
        Err(ReadFault::Memory) => return Err(SettingsFault::Memory),
    };
    parse_settings(alloc, &octets)
}
