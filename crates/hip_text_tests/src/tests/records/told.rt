//! How tests tell records.
use hip_cuts::{Backend, HipStr};
use std::alloc::{AllocError, Global};

/// Adds a record to what is told: each field in brackets, and a `;` behind them.
pub(crate) fn tell<B: Backend>(
    told: &mut String,
    fields: &[HipStr<'_, B>],
) -> Result<(), AllocError> {
    for field in fields {
        told.push('[')?;
        told.push_str(field.as_str())?;
        told.push(']')?;
    }
    told.push(';')?;
    Ok(())
}

/// The records as one text, each as [`tell`] adds it.
pub(crate) fn told<B: Backend>(
    alloc: Global,
    records: &[Vec<HipStr<'_, B>>],
) -> Result<String, AllocError> {
    let mut told = String::new(alloc);
    for fields in records {
        tell(&mut told, fields)?;
    }
    Ok(told)
}
