//! The settings of a running engine, and a second look at a file that gives none: why it doesn't.
ghost use Rattle.std.specs.Prelude.{IfOk, IfErr, option_map};
ghost use Rattle.flow_base.specs.declared.fault.Fault.TheVariants as faults;
ghost use Rattle.flow_cli.specs.Reasons.{EndsBy};
ghost use Rattle.flow.specs.Configured.{IsOfSettings, IsSet, IsSetBy, IsUnset, IsUnsetBy};

use crate::system::System;
use flow_base::fault::Fault;
use flow_cli::place::spot_of;
use flow_cli::reason::{BadSetting, Early, SettingKey};
use flow_settings::settings::{MOST_BATCH, MOST_CACHE, MOST_WORKERS, Settings};
use flow_work::settings::settings_of;
use std::alloc::{AllocError, Global};
use toml::{Table, Value};

/// Whether a value is a whole number from 1 to the most.
fn is_allowed(value: &Value, most: usize) -> bool {
    match value.as_integer() {
        Some(number) => match usize::try_from(number) {
            Ok(number) => 1 <= number && number <= most,
            Err(_) => false,
        },
        None => false,
    }
}

/// What a table has that settings may not have.
fn bad_entry(alloc: Global, table: &Table) -> Result<Option<BadSetting>, AllocError> {
    for (key, value) in table.iter() {
        let (key, most) = match key.as_str() {
            "batch" => (SettingKey::Batch, MOST_BATCH),
            "workers" => (SettingKey::Workers, MOST_WORKERS),
            "cache" => (SettingKey::Cache, MOST_CACHE),
            other => return Ok(Some(BadSetting::OtherKey(String::from_str(alloc, other)?))),
        };
        if !is_allowed(value, most) {
            return Ok(Some(BadSetting::BadValue { key, most }));
        }
    }
    Ok(None)
}

/// What a text has that settings may not have.
fn bad_setting(alloc: Global, text: &str) -> Result<Option<BadSetting>, AllocError> {
    match toml::table_from_str(alloc, text) {
        Ok(table) => bad_entry(alloc, &table),
        Err(error) => match error.span() {
            Some(span) => {
                let spot = spot_of(text.as_bytes(), span.start);
                Ok(Some(BadSetting::NotToml {
                    line: spot.line,
                    column: spot.column,
                }))
            }
            None => Ok(None),
        },
    }
}

/// The end of a call whose text gives no settings, and why.
fn bad_settings(alloc: Global, file: &str, text: &str) -> Early
    ensures { EndsBy faults.BadSettings (IsOfSettings file.now) result }
{
    match bad_setting(alloc, text) {
        Ok(Some(why)) => Early::no_settings(alloc, file, why),
        _ => Early::from(Fault::BadSettings),
    }
}

/// The end of a call whose file gives no settings, and why.
fn no_settings<H: System>(alloc: Global, system: &H, file: &str) -> Early
    ensures { EndsBy faults.BadSettings (IsOfSettings file.now) result }
{
    match system.text(file) {
        Ok(text) => bad_settings(alloc, file, text.as_str()),
        Err(error) => Early::unread(alloc, Fault::BadSettings, file, error.kind()),
    }
}

/// The settings of a file.
fn settings_from<H: System>(alloc: Global, system: &H, file: &str) -> Result<Settings, Early>
    ensures set { IfOk result (IsSetBy (H.reads system.now) file.now) }
    ensures unset { IfErr result (IsUnsetBy (H.reads system.now) file.now) }
{
    match settings_of(alloc, system.text(file)) {
        Ok(settings) => Ok(settings),
        Err(Fault::BadSettings) => Err(no_settings(alloc, system, file)),
        Err(fault) => Err(Early::from(fault)),
    }
}

/// The settings of this file, and the usual ones where none is named.
pub fn settings_in<H: System>(
    alloc: Global,
    system: &H,
    file: Option<&str>,
) -> Result<Settings, Early>
    ensures set { IfOk result (IsSet (H.reads system.now) (option_map (λ name. name.now) file.entry)) }
    ensures unset { IfErr result (IsUnset (H.reads system.now) (option_map (λ name. name.now) file.entry)) }
{
    match file {
        Some(file) => settings_from(alloc, system, file),
        None => Ok(Settings::usual()),
    }
}
