//! What the texts of options say: each by one call, which answers the cause if the words are refused.

ghost use Rattle.std.specs.Prelude.{◌≡◌, ◌%◌, ◌≤◌, IfOk, IfErr};
ghost use Rattle.rtk_obs.specs.Dating.{IsReference};
ghost use Rattle.rtk_obs.specs.declared.time.TheConstants.{LAST_MS};
ghost use Rattle.rtk_rinex.specs.Header.{IsMarker};
ghost use Rattle.rtk_cli.specs.Steps.AutoWords.{SaysMarker, HasNoMarker, IsNoReference};
ghost use Rattle.rtk_cli.specs.Steps.MomentText.{WritesMoment, HasMoment, HasNoMoment};
ghost use Rattle.rtk_cli.specs.Steps.OptionTexts.{SaysIfAny};

use crate::moment_text::moment_of;
use crate::words::BadWords;
use rtk_convert::Reference;
use rtk_obs::GpsMs;
use rtk_rinex::{CreationTime, Marker};

/// The moment that a text writes, else this cause.
pub(crate) fn moment_said(text: &str, cause: BadWords) -> Result<GpsMs, BadWords>
    ensures moment { IfOk result (WritesMoment text.now) }
    ensures bound { IfOk result (λ t. t ≤ LAST_MS) }
    ensures whole_second { IfOk result (λ t. t % 1000 ≡ 0) }
    ensures cause { IfErr result (λ told. (told ≡ cause) × ¬ (HasMoment text.now)) }
{
    match moment_of(text.as_bytes()) {
        Some(moment) => Ok(moment),
        None => Err(cause),
    }
}

/// The moment that a text writes, or none without a text; else this cause.
pub(crate) fn moment_if_any(text: Option<&str>, cause: BadWords) -> Result<Option<GpsMs>, BadWords>
    ensures moment { IfOk result (SaysIfAny WritesMoment text.entry) }
    ensures cause { IfErr result (λ told. (told ≡ cause) × HasNoMoment text.entry) }
{
    match text {
        Some(text) => Ok(Some(moment_said(text, cause)?)),
        None => Ok(None),
    }
}

/// The time of making that a text writes, else this cause.
pub(crate) fn made_said(text: &str, cause: BadWords) -> Result<CreationTime, BadWords>
    ensures moment { IfOk result (WritesMoment text.now) }
    ensures bound { IfOk result (λ t. t ≤ LAST_MS) }
    ensures cause { IfErr result (λ told. (told ≡ cause) × ¬ (HasMoment text.now)) }
{
    let moment = moment_said(text, cause)?;
    let Ok(made) = CreationTime::new(moment) else {
        unreachable!();
    };
    Ok(made)
}

/// The time of making that a text writes, or none without a text; else this cause.
pub(crate) fn made_if_any(
    text: Option<&str>,
    cause: BadWords,
) -> Result<Option<CreationTime>, BadWords>
    ensures moment { IfOk result (SaysIfAny WritesMoment text.entry) }
    ensures cause { IfErr result (λ told. (told ≡ cause) × HasNoMoment text.entry) }
{
    match text {
        Some(text) => Ok(Some(made_said(text, cause)?)),
        None => Ok(None),
    }
}

/// The marker that a text names.
pub(crate) fn marker_said(text: &str) -> Result<Marker, BadWords>
    ensures marker { IfOk result (λ marker. marker ≡ text.now) }
    ensures good { IfOk result IsMarker }
    ensures cause { IfErr result (λ told. (told ≡ BadWords.Marker) × ¬ (IsMarker text.now)) }
{
    match Marker::new(text.as_bytes()) {
        Ok(marker) => Ok(marker),
        Err(_) => Err(BadWords::Marker),
    }
}

/// The marker that a text names, or none without a text.
pub(crate) fn marker_if_any(text: Option<&str>) -> Result<Option<Marker>, BadWords>
    ensures marker { IfOk result (SaysIfAny SaysMarker text.entry) }
    ensures cause { IfErr result (λ told. (told ≡ BadWords.Marker) × HasNoMarker text.entry) }
{
    match text {
        Some(text) => Ok(Some(marker_said(text)?)),
        None => Ok(None),
    }
}

/// The reference of a moment, else this cause.
pub(crate) fn reference_said(moment: GpsMs, cause: BadWords) -> Result<Reference, BadWords>
    ensures near { IfOk result (λ near. near ≡ moment) }
    ensures cause { IfErr result (λ told. (told ≡ cause) × ¬ (IsReference moment)) }
{
    match Reference::new(moment) {
        Ok(near) => Ok(near),
        Err(_) => Err(cause),
    }
}

/// The reference of a moment, or none without a moment; else this cause.
pub(crate) fn reference_if_any(
    moment: Option<GpsMs>,
    cause: BadWords,
) -> Result<Option<Reference>, BadWords>
    ensures near { IfOk result (λ near. near ≡ moment) }
    ensures cause { IfErr result (λ told. (told ≡ cause) × IsNoReference moment) }
{
    match moment {
        Some(moment) => Ok(Some(reference_said(moment, cause)?)),
        None => Ok(None),
    }
}
