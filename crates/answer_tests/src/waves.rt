//! Waves, which begin with the names of their FIFOs.
use std::alloc::Global;
use std::test::Fail;

/// The wave that names these FIFOs and shows these fills from clock 0 on.
pub fn wave_of(alloc: Global, fifos: &[&str], fills: &[u8]) -> Result<Vec<u8>, Fail> {
    let mut wave = Vec::from_slice(alloc, b"$timescale 1 ns $end\n$scope module flow $end\n")?;
    for (number, fifo) in fifos.iter().enumerate() {
        let line = format!(in alloc; "$var wire 32 f{number} {fifo} $end\n")?;
        wave.extend_from_slice(line.as_bytes())?;
    }
    wave.extend_from_slice(b"$upscope $end\n$enddefinitions $end\n")?;
    wave.extend_from_slice(fills)?;
    Ok(wave)
}
