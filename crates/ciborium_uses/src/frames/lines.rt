//! The lines of the program: readings as words, such as `hall@1800=-5`, or `hall@0` without a
//! level, and the bytes of a log as hex.
use super::reading::Reading;
use super::{
    LogError, append_reading, load_log, load_sensor, mend_log, read_log, save_log, through_appends,
    through_memory, write_log, write_reading,
};
use std::alloc::{AllocError, Global};
use std::fs::File;

/// Answers `write WORDS` with hex, `read HEX` with words, and `keep WORDS` with the words again, as
/// `gather WORDS` does, reading by reading. Of a file, `save PATH WORDS` makes a log of it, and so
/// does `grow PATH WORDS`, reading by reading; `append PATH WORDS` puts them behind what it holds;
/// `load PATH` answers its words, and `sensor PATH NAME` those of one sensor; `mend PATH` cuts it
/// behind its last whole reading, and answers how long it is.
///
/// # Errors
///
/// `AllocError` where an allocation failed.
pub fn answer(rt: &HostRuntime, line: &str) -> Result<String, AllocError> {
    let alloc = rt.alloc();
    let (command, rest) = line.split_once(' ').unwrap_or((line, ""));
    let (path, words) = rest.split_once(' ').unwrap_or((rest, ""));
    let answer = match command {
        "write" => write(alloc, rest),
        "read" => read(alloc, rest),
        "keep" => keep(alloc, rest),
        "gather" => gather(alloc, rest),
        "save" => save(rt, path, words),
        "grow" => grow(rt, path, words),
        "append" => append(rt, path, words),
        "load" => load(rt, rest),
        "sensor" => sensor(rt, path, words),
        "mend" => mend(rt, rest),
        _ => String::from_str(alloc, "no such command").map_err(LogError::from),
    };
    match answer {
        Ok(text) => Ok(text),
        Err(error) => format!(in alloc; "{error}"),
    }
}

fn write(alloc: Global, words: &str) -> Result<String, LogError> {
    let readings = parse_readings(alloc, words)?;
    let mut log = Vec::new(alloc);
    write_log(&readings, &mut log)?;
    Ok(hex::encode(alloc, log)?)
}

fn read(alloc: Global, digits: &str) -> Result<String, LogError> {
    let Ok(log) = hex::decode(alloc, digits) else {
        return Ok(String::from_str(alloc, "no hex")?);
    };
    let mut reader: &[u8] = &log;
    let readings = read_log(alloc, &mut reader)?;
    Ok(show_readings(alloc, &readings)?)
}

fn keep(alloc: Global, words: &str) -> Result<String, LogError> {
    let readings = parse_readings(alloc, words)?;
    let again = through_memory(alloc, &readings)?;
    Ok(show_readings(alloc, &again)?)
}

fn gather(alloc: Global, words: &str) -> Result<String, LogError> {
    let readings = parse_readings(alloc, words)?;
    let again = through_appends(alloc, &readings)?;
    Ok(show_readings(alloc, &again)?)
}

fn save(rt: &HostRuntime, path: &str, words: &str) -> Result<String, LogError> {
    let readings = parse_readings(rt.alloc(), words)?;
    save_log(rt, path, &readings)?;
    Ok(String::from_str(rt.alloc(), "saved")?)
}

fn grow(rt: &HostRuntime, path: &str, words: &str) -> Result<String, LogError> {
    let readings = parse_readings(rt.alloc(), words)?;
    let mut file = File::create(rt, path)?;
    for reading in &readings {
        write_reading(reading, &mut file)?;
    }
    Ok(String::from_str(rt.alloc(), "saved")?)
}

fn append(rt: &HostRuntime, path: &str, words: &str) -> Result<String, LogError> {
    let readings = parse_readings(rt.alloc(), words)?;
    for reading in &readings {
        append_reading(rt, path, reading)?;
    }
    Ok(String::from_str(rt.alloc(), "appended")?)
}

fn load(rt: &HostRuntime, path: &str) -> Result<String, LogError> {
    let readings = load_log(rt, path)?;
    Ok(show_readings(rt.alloc(), &readings)?)
}

fn sensor(rt: &HostRuntime, path: &str, name: &str) -> Result<String, LogError> {
    let readings = load_sensor(rt, path, name)?;
    Ok(show_readings(rt.alloc(), &readings)?)
}

fn mend(rt: &HostRuntime, path: &str) -> Result<String, LogError> {
    let end = mend_log(rt, path)?;
    Ok(format!(in rt.alloc(); "{end} bytes")?)
}

// The readings of words; a word that is none is passed over.
fn parse_readings(alloc: Global, words: &str) -> Result<Vec<Reading>, AllocError> {
    let mut readings = Vec::new(alloc);
    for word in words.split_whitespace() {
        if let Some(reading) = parse_reading(alloc, word)? {
            readings.push(reading)?;
        }
    }
    Ok(readings)
}

fn parse_reading(alloc: Global, word: &str) -> Result<Option<Reading>, AllocError> {
    let Some((sensor, numbers)) = word.split_once('@') else {
        return Ok(None);
    };
    let (at, level) = match numbers.split_once('=') {
        Some((at, level)) => (at.parse::<u64>(), level.parse::<i16>().ok()),
        None => (numbers.parse::<u64>(), None),
    };
    let Ok(at) = at else {
        return Ok(None);
    };
    let sensor = String::from_str(alloc, sensor)?;
    Ok(Some(Reading { sensor, at, level }))
}

fn show_readings(alloc: Global, readings: &[Reading]) -> Result<String, AllocError> {
    let mut text = String::new(alloc);
    for reading in readings {
        if !text.is_empty() {
            text.push(' ')?;
        }
        text.push_str(show_reading(alloc, reading)?.as_str())?;
    }
    Ok(text)
}

fn show_reading(alloc: Global, reading: &Reading) -> Result<String, AllocError> {
    let Reading { sensor, at, level } = reading;
    match level {
        Some(level) => format!(in alloc; "{sensor}@{at}={level}"),
        None => format!(in alloc; "{sensor}@{at}"),
    }
}
