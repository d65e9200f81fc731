//! The lines of the program: settings as words, such as `sound=on:7`, and their encoding as hex.
use super::setting::Setting;
use super::topic::Topic;
use super::{Settings, SettingsError, load, save, save_both, through_memory};
use std::alloc::{AllocError, Global};
use std::collections::BTreeMap;

/// Answers `save WORDS` with hex, `load HEX` with words, `keep WORDS` with the words again, and
/// `both WORDS / WORDS` with whether both are saved as the same bytes.
///
/// # Errors
///
/// `AllocError` where an allocation failed.
pub fn answer(alloc: Global, line: &str) -> Result<String, AllocError> {
    let (command, rest) = line.split_once(' ').unwrap_or((line, ""));
    let answer = match command {
        "save" => answer_save(alloc, rest),
        "load" => answer_load(alloc, rest),
        "keep" => answer_keep(alloc, rest),
        "both" => answer_both(alloc, rest),
        _ => String::from_str(alloc, "no such command").map_err(SettingsError::from),
    };
    match answer {
        Ok(text) => Ok(text),
        Err(error) => format!(in alloc; "{error}"),
    }
}

fn answer_save(alloc: Global, words: &str) -> Result<String, SettingsError> {
    let settings = parse_settings(alloc, words)?;
    let mut bytes = Vec::new(alloc);
    save(alloc, &settings, &mut bytes)?;
    Ok(hex::encode(alloc, bytes)?)
}

fn answer_load(alloc: Global, digits: &str) -> Result<String, SettingsError> {
    let Ok(bytes) = hex::decode(alloc, digits) else {
        return Ok(String::from_str(alloc, "no hex")?);
    };
    let settings = load(alloc, &bytes)?;
    Ok(show_settings(alloc, &settings)?)
}

fn answer_keep(alloc: Global, words: &str) -> Result<String, SettingsError> {
    let settings = parse_settings(alloc, words)?;
    let again = through_memory(alloc, &settings)?;
    Ok(show_settings(alloc, &again)?)
}

fn answer_both(alloc: Global, words: &str) -> Result<String, SettingsError> {
    let (left, right) = words.split_once('/').unwrap_or((words, ""));
    let left = parse_settings(alloc, left)?;
    let right = parse_settings(alloc, right)?;
    let (first, second) = save_both(alloc, &left, &right)?;
    let word = if first == second {
        "equal"
    } else {
        "different"
    };
    Ok(String::from_str(alloc, word)?)
}

// The settings of words; a word that is none is passed over.
fn parse_settings(alloc: Global, words: &str) -> Result<Settings, AllocError> {
    let mut settings = BTreeMap::new(alloc);
    for word in words.split_whitespace() {
        if let Some((topic, setting)) = parse_setting(word) {
            settings.insert(topic, setting)?;
        }
    }
    Ok(settings)
}

fn parse_setting(word: &str) -> Option<(Topic, Setting)> {
    let (name, setting) = word.split_once('=')?;
    let (state, level) = setting.split_once(':')?;
    let topic = parse_topic(name)?;
    let level = level.parse::<u8>().ok()?;
    let enabled = state == "on";
    Some((topic, Setting { enabled, level }))
}

fn parse_topic(name: &str) -> Option<Topic> {
    match name {
        "network" => Some(Topic::Network),
        "screen" => Some(Topic::Screen),
        "sound" => Some(Topic::Sound),
        _ => None,
    }
}

fn show_settings(alloc: Global, settings: &Settings) -> Result<String, AllocError> {
    let mut text = String::new(alloc);
    for (topic, setting) in settings {
        if !text.is_empty() {
            text.push(' ')?;
        }
        text.push_str(show_setting(alloc, *topic, setting)?.as_str())?;
    }
    Ok(text)
}

fn show_setting(alloc: Global, topic: Topic, setting: &Setting) -> Result<String, AllocError> {
    let state = if setting.enabled { "on" } else { "off" };
    format!(in alloc; "{}={state}:{}", topic.name(), setting.level)
}
