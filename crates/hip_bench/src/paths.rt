//! Paths that are compared, taken apart and joined: the lines of the input.
use crate::compare::number_of;
use crate::cuts::lines;
use crate::ring::mix;
use hipstr::Rc;
use hipstr::path::{Component, HipPath};
use std::alloc::Global;

/// The lines of the input, as paths.
fn paths<'b>(alloc: Global, input: &[u8]) -> Option<Vec<HipPath<'b, Rc>>> {
    let mut paths = Vec::new(alloc);
    for line in lines(alloc, input)? {
        paths.push(HipPath::from(line)).ok()?;
    }
    Some(paths)
}

/// Each round adds the order of each path and the one behind it.
fn compared(alloc: Global, input: &[u8], rounds: u64) -> Option<u64> {
    let paths = paths(alloc, input)?;
    let mut sum = 0u64;
    for _ in 0..rounds {
        for i in 1..paths.len() {
            sum = sum.wrapping_add(number_of(paths[i - 1].cmp(&paths[i])));
        }
        sum = mix(sum, 7);
    }
    Some(sum)
}

/// Each round counts the components of all paths, and the bytes of their names.
fn taken_apart(alloc: Global, input: &[u8], rounds: u64) -> Option<u64> {
    let paths = paths(alloc, input)?;
    let mut sum = 0u64;
    for _ in 0..rounds {
        for path in &paths {
            for component in path.components() {
                sum = sum.wrapping_add(1);
                if let Component::Normal(name) = component {
                    sum = sum.wrapping_add(name.len() as u64);
                }
            }
        }
        sum = mix(sum, 7);
    }
    Some(sum)
}

/// Each round cuts the file name of each path, and adds its length.
fn named(alloc: Global, input: &[u8], rounds: u64) -> Option<u64> {
    let paths = paths(alloc, input)?;
    let mut sum = 0u64;
    for _ in 0..rounds {
        for path in &paths {
            if let Some(name) = path.file_name(alloc).ok()? {
                sum = sum.wrapping_add(name.len() as u64);
            }
        }
        sum = mix(sum, 7);
    }
    Some(sum)
}

/// Each round cuts the extension of each path, and adds its length.
fn extended(alloc: Global, input: &[u8], rounds: u64) -> Option<u64> {
    let paths = paths(alloc, input)?;
    let mut sum = 0u64;
    for _ in 0..rounds {
        for path in &paths {
            if let Some(extension) = path.extension(alloc).ok()? {
                sum = sum.wrapping_add(extension.len() as u64);
            }
        }
        sum = mix(sum, 7);
    }
    Some(sum)
}

/// Each round cuts the parent of each path, and adds its length.
fn parents(alloc: Global, input: &[u8], rounds: u64) -> Option<u64> {
    let paths = paths(alloc, input)?;
    let mut sum = 0u64;
    for _ in 0..rounds {
        for path in &paths {
            if let Some(parent) = path.parent(alloc).ok()? {
                sum = sum.wrapping_add(parent.as_path().len() as u64);
            }
        }
        sum = mix(sum, 7);
    }
    Some(sum)
}

/// Each round joins a name to each path, and adds its length.
fn joined(alloc: Global, input: &[u8], rounds: u64) -> Option<u64> {
    let paths = paths(alloc, input)?;
    let mut sum = 0u64;
    for _ in 0..rounds {
        for path in &paths {
            let joined = path.join(alloc, b"child.txt").ok()?;
            sum = sum.wrapping_add(joined.as_path().len() as u64);
        }
        sum = mix(sum, 7);
    }
    Some(sum)
}

#[unsafe(no_mangle)]
pub extern "C" fn hip_path_file_name(alloc: Global, input: &[u8], rounds: u64) -> u64 {
    named(alloc, input, rounds).unwrap_or(0)
}

#[unsafe(no_mangle)]
pub extern "C" fn hip_path_extension(alloc: Global, input: &[u8], rounds: u64) -> u64 {
    extended(alloc, input, rounds).unwrap_or(0)
}

#[unsafe(no_mangle)]
pub extern "C" fn hip_path_parent(alloc: Global, input: &[u8], rounds: u64) -> u64 {
    parents(alloc, input, rounds).unwrap_or(0)
}

#[unsafe(no_mangle)]
pub extern "C" fn hip_path_join(alloc: Global, input: &[u8], rounds: u64) -> u64 {
    joined(alloc, input, rounds).unwrap_or(0)
}

#[unsafe(no_mangle)]
pub extern "C" fn hip_path_cmp(alloc: Global, input: &[u8], rounds: u64) -> u64 {
    compared(alloc, input, rounds).unwrap_or(0)
}

#[unsafe(no_mangle)]
pub extern "C" fn hip_path_components(alloc: Global, input: &[u8], rounds: u64) -> u64 {
    taken_apart(alloc, input, rounds).unwrap_or(0)
}
