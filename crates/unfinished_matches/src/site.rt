//! Unfinished matches, and the sites at which a run meets them.
//!
//! A failure shows the pattern of its site, or else that of the first site, or else the compiled
//! pattern. Its keyword is `pattern`, whichever keyword requested the match, and it is reported at
//! the value that its pointer leads to.
ghost use Rattle.std.specs.Prelude.{[], IfOk, None, Some, is_some, option_copied, option_map};
ghost use Rattle.std.specs.Prelude.{string_bytes, true, unwrap_or, ◌≡◌};
ghost use Rattle.schema_reports.specs.Showing.{Shows, Yields};
ghost use Rattle.theory_meaning.specs.Headline.{reason_text};
ghost use Rattle.theory_definitions.specs.Instance.{a_value, subject_at};
ghost use Rattle.schema_reports.specs.InstanceViews.{subject_of};
ghost use Rattle.theory_definitions.specs.Matching.{same_pair, unfinished};
ghost use Rattle.schema_reports.specs.ReportViews.{error_of};
ghost use Rattle.theory_meaning.specs.Searched.{failure_error, site_error};
ghost use Rattle.serde_json.specs.View.{view};
ghost use Rattle.unfinished_matches.specs.MatchViews.{IsPlaceOf, failed_at, met_at, pair_of, reason_of};
ghost use Rattle.theory_definitions.specs.Runs.{Site};
ghost use Rattle.unfinished_matches.specs.HashIndex.{match_hash};
ghost use Rattle.theory_definitions.specs.Unfinished.{located_by, or_pattern, site_of};

use crate::positions::match_hash;
use schema_reports::{Instance, Location, OutOfMemory, Place, Text, ValidationError};
use serde_json::Value;
use std::alloc::{AllocError, Global};
use std::marker::Model;

/// Why a match was not finished.
///
/// A limit was reached, which the text describes, or the regex engine failed.
#[derive(Drop)]
pub enum Reason {
    Limit(Text),
    Engine,
}

/// The answer of a matcher.
///
/// It says whether the subject matches, or why the match was not finished.
#[derive(Drop)]
pub enum Match {
    Finished(bool),
    Unfinished(Reason),
}

/// A match that the matcher could not finish: the compiled pattern and the subject.
#[derive(Drop)]
pub struct UnfinishedMatch {
    pattern: Text,
    subject: Text,
}

impl Model for UnfinishedMatch {
    ghost use Rattle.theory_definitions.specs.Matching.{Pair};

    ghost Value = { Pair };

    ghost view = { λ u. record { pattern = u.pattern; subject = u.subject } };
}

impl UnfinishedMatch {
    /// Returns the match of this pattern and this subject.
    pub fn new(alloc: Global, pattern: &str, subject: &str) -> Result<UnfinishedMatch, OutOfMemory>
        ensures pair { Yields result (pair_of pattern.now subject.now) }
    {
        let pattern = Text::new(alloc, pattern)?;
        let subject = Text::new(alloc, subject)?;
        Ok(UnfinishedMatch { pattern, subject })
    }

    /// Returns whether this is the match of this pattern and this subject.
    pub fn is(&self, pattern: &str, subject: &str) -> bool
        ensures same { result ≡ same_pair (pair_of pattern.now subject.now) self.now }
    {
        self.pattern.is(pattern) && self.subject.is(subject)
    }

    /// Returns the compiled pattern.
    pub fn pattern(&self) -> &str
        ensures { result.now ≡ self.now.pattern }
    {
        self.pattern.as_str()
    }

    /// Returns the subject.
    pub fn subject(&self) -> &str
        ensures { result.now ≡ self.now.subject }
    {
        self.subject.as_str()
    }

    /// Returns the hash by which the match is found.
    pub fn hash(&self) -> u64
        ensures hash { result ≡ match_hash self.now }
    {
        match_hash(self.pattern.as_str(), self.subject.as_str())
    }
}

impl Clone for UnfinishedMatch {
    ghost is_clone = { λ u copy. copy ≡ u };

    fn clone(&self) -> Result<UnfinishedMatch, AllocError> {
        let pattern = self.pattern.clone()?;
        let subject = self.subject.clone()?;
        Ok(UnfinishedMatch { pattern, subject })
    }
}

/// The site at which a match was requested.
///
/// It has the schema path; the evaluation path and the subject's place, if the run knows them; and
/// the pattern as the schema has it, if that differs from the compiled one.
#[derive(Drop)]
pub struct MatchSite<'i> {
    schema_path: Location,
    located: Option<(Location, Place<'i>)>,
    pattern: Option<Text>,
}

impl<'i> Model for MatchSite<'i> {
    ghost use Rattle.theory_definitions.specs.Runs.{Site};

    ghost Value = { Site };

    ghost view = { λ s. record { schema_path = s.schema_path; located = s.located; pattern = s.pattern } };
}

impl<'i> MatchSite<'i> {
    /// Returns a site with a schema path alone.
    pub fn schema(schema_path: Location) -> MatchSite<'i>
        ensures site { result ≡ record { schema_path = schema_path; located = None; pattern = None } }
    {
        MatchSite {
            schema_path,
            located: None,
            pattern: None,
        }
    }

    /// Returns a site that also has an evaluation path and a place.
    pub fn located(
        schema_path: Location,
        evaluation_path: Location,
        place: Place<'i>,
    ) -> MatchSite<'i>
        ensures site { result ≡ record { schema_path = schema_path; located = Some (evaluation_path, place.entry); pattern = None } }
    {
        MatchSite {
            schema_path,
            located: Some((evaluation_path, place)),
            pattern: None,
        }
    }

    /// Adds the pattern as the schema has it.
    pub fn pattern(self, alloc: Global, pattern: &str) -> Result<MatchSite<'i>, OutOfMemory>
        ensures site { Yields result (record self.entry { pattern = Some pattern.now }) }
    {
        let pattern = Text::new(alloc, pattern)?;
        Ok(MatchSite {
            schema_path: self.schema_path,
            located: self.located,
            pattern: Some(pattern),
        })
    }
}

impl<'i> MatchSite<'i> {
    /// Returns whether the site has an instance path.
    pub fn has_place(&self) -> bool
        ensures { result ≡ is_some self.now.located }
    {
        self.located.is_some()
    }

    /// Returns the schema path.
    pub fn schema_path(&self) -> &Location
        ensures path { result.now ≡ self.now.schema_path }
    {
        &self.schema_path
    }

    /// Returns the evaluation path, if the site has one.
    pub fn evaluation_path(&self) -> Option<&Location>
        ensures path { option_copied result ≡ option_map (λ l. l.0) self.now.located }
    {
        match &self.located {
            Some(located) => Some(&located.0),
            None => None,
        }
    }

    /// Returns the place of the subject, if the site has one.
    ///
    /// The instance path leads to this place.
    pub fn place(&self) -> Option<&Place<'i>>
        ensures place { option_copied result ≡ option_map (λ l. l.1) self.now.located }
    {
        match &self.located {
            Some(located) => Some(&located.1),
            None => None,
        }
    }

    /// Returns the pattern as the schema has it, if the site holds it.
    pub fn written_pattern(&self) -> Option<&str>
        ensures pattern { option_copied result ≡ self.now.pattern }
    {
        match &self.pattern {
            Some(pattern) => Some(pattern.as_str()),
            None => None,
        }
    }

    // Takes the other site over, but keeps its own pattern if the other has none.
    fn take_over(&mut self, other: MatchSite<'i>)
        ensures { self.new ≡ record other.entry { pattern = or_pattern other.entry.pattern self.old.pattern } }
    {
        let mut other = other;
        if other.pattern.is_none() {
            other.pattern = self.pattern.take();
        }
        *self = other;
    }
}

impl<'i> Clone for MatchSite<'i> {
    ghost is_clone = { λ s copy. copy ≡ s };

    /// Returns a copy of the site.
    fn clone(&self) -> Result<MatchSite<'i>, AllocError> {
        let schema_path = self.schema_path.clone()?;
        let pattern = self.pattern.clone()?;
        let located = self.located.clone()?;
        Ok(MatchSite {
            schema_path,
            located,
            pattern,
        })
    }
}

/// An unfinished match at a site that has an instance path.
#[derive(Drop)]
pub struct LocatedMatch<'i> {
    unfinished: UnfinishedMatch,
    site: MatchSite<'i>,
}

impl<'i> Model for LocatedMatch<'i> {
    ghost use Rattle.theory_definitions.specs.Runs.{Met};

    ghost Value = { Met };

    ghost view = { λ l. record { pair = l.unfinished; site = l.site } };
}

impl<'i> LocatedMatch<'i> {
    /// Returns the match of this pattern and this subject, at a copy of this site.
    pub fn met(
        alloc: Global,
        pattern: &str,
        subject: &str,
        site: &MatchSite<'i>,
    ) -> Result<LocatedMatch<'i>, OutOfMemory>
        ensures { Yields result (met_at pattern.now subject.now site.now) }
    {
        let unfinished = UnfinishedMatch::new(alloc, pattern, subject)?;
        let site = site.clone()?;
        Ok(LocatedMatch { unfinished, site })
    }

    /// Returns the match.
    pub fn unfinished(&self) -> &UnfinishedMatch
        ensures { result.now ≡ self.now.pair }
    {
        &self.unfinished
    }
}

/// An unfinished match at a site, and the reason.
#[derive(Drop)]
pub struct MatchFailure<'i> {
    unfinished: UnfinishedMatch,
    reason: Reason,
    site: MatchSite<'i>,
}

impl<'i> Model for MatchFailure<'i> {
    ghost use Rattle.unfinished_matches.specs.MatchViews.{reason_of};
    ghost use Rattle.theory_definitions.specs.Unfinished.{Failure};

    ghost Value = { Failure };

    ghost view = { λ f. record { met = record { pair = f.unfinished; site = f.site }; reason = reason_of f.reason } };
}

impl<'i> MatchFailure<'i> {
    /// Returns the failure of this match at this site.
    pub fn met(
        alloc: Global,
        pattern: &str,
        subject: &str,
        reason: Reason,
        site: MatchSite<'i>,
    ) -> Result<MatchFailure<'i>, OutOfMemory>
        ensures failure { Yields result (failed_at pattern.now subject.now site.entry (reason_of reason)) }
    {
        let unfinished = UnfinishedMatch::new(alloc, pattern, subject)?;
        Ok(MatchFailure {
            unfinished,
            reason,
            site,
        })
    }

    /// Returns the match.
    pub fn unfinished(&self) -> &UnfinishedMatch
        ensures { result.now ≡ self.now.met.pair }
    {
        &self.unfinished
    }

    /// Returns the site.
    pub fn site(&self) -> &MatchSite<'i>
        ensures { result.now ≡ self.now.met.site }
    {
        &self.site
    }

    /// Returns the compiled pattern.
    pub fn pattern(&self) -> &str
        ensures pattern { result.now ≡ self.now.met.pair.pattern }
    {
        self.unfinished.pattern()
    }

    /// Returns the subject.
    pub fn subject(&self) -> &str
        ensures subject { result.now ≡ self.now.met.pair.subject }
    {
        self.unfinished.subject()
    }

    /// Returns why the match was not finished.
    pub fn reason(&self) -> &Reason
        ensures reason { reason_of result.now ≡ self.now.reason }
    {
        &self.reason
    }

    /// Moves the failure to a site with an instance path, if its own has none.
    ///
    /// The new site is the first of these for the same match, if there is one. It takes over the
    /// pattern as the schema has it, unless it has one itself.
    pub fn locate(&mut self, located: Vec<LocatedMatch<'i>>)
        ensures { self.new ≡ located_by self.old located.entry.items }
    {
        if self.site.located.is_some() {
            return;
        }
        let mut located = located;
        if let Some(at) = place_of(
            &located,
            self.unfinished.pattern(),
            self.unfinished.subject(),
        ) {
            let found = located.remove(at);
            self.site.take_over(found.site);
        }
    }
}

fn reason_text(alloc: Global, reason: Reason, pattern: &str) -> Result<String, OutOfMemory>
    ensures text { Shows string_bytes result (reason_text pattern.now (unfinished (reason_of reason))) }
{
    match reason {
        Reason::Limit(text) => Ok(text.into_string()),
        Reason::Engine => format!(in alloc; "Regex engine failed to evaluate pattern '{pattern}'"),
    }
}

// If the site is not located, the evaluation path is the schema path, and the place is the root.
fn place_or_root<'i>(
    alloc: Global,
    located: Option<(Location, Place<'i>)>,
    schema_path: &Location,
) -> Result<(Location, Place<'i>), OutOfMemory>
    ensures at { Yields result (unwrap_or located.entry (schema_path.now, [])) }
{
    match located {
        Some(located) => Ok(located),
        None => {
            let evaluation_path = schema_path.clone()?;
            Ok((evaluation_path, Place::root(alloc)))
        }
    }
}

// The instance at the place, or the root if there is none.
fn at_or_root<'i>(root: &'i Value, place: &Place<'i>) -> Instance<'i>
    ensures at { subject_of result ≡ unwrap_or (subject_at (view root.now) place.now) (a_value (view root.now)) }
{
    match Instance::Value(root).at(place) {
        Some(found) => found,
        None => Instance::Value(root),
    }
}

// The text shows the pattern as the schema has it, if the site holds it.
fn failure_text(
    alloc: Global,
    reason: Reason,
    met: &UnfinishedMatch,
    site: &MatchSite<'_>,
) -> Result<String, OutOfMemory>
    ensures text { Shows string_bytes result (reason_text (unwrap_or site.now.pattern met.now.pattern) (unfinished (reason_of reason))) }
{
    let shown = match &site.pattern {
        Some(pattern) => pattern.as_str(),
        None => met.pattern(),
    };
    reason_text(alloc, reason, shown)
}

// The error's place is the one that the pointer of the site's place leads to. Its instance is the
// one found there.
fn error_at<'i>(
    alloc: Global,
    root: &'i Value,
    site: MatchSite<'i>,
    text: String,
) -> Result<ValidationError<'i>, OutOfMemory>
    ensures error { Shows (error_of true) result (site_error site.entry (string_bytes text)) }
    ensures instance { IfOk result (λ e. subject_of e.instance ≡ unwrap_or (subject_at (view root.now) e.place) (a_value (view root.now))) }
{
    let keyword = String::from_str(alloc, "pattern")?;
    let MatchSite {
        schema_path,
        located,
        pattern,
    } = site;
    drop(pattern);
    let (evaluation_path, place) = place_or_root(alloc, located, &schema_path)?;
    let place = place.shown();
    let instance = at_or_root(root, &place);
    Ok(ValidationError {
        instance,
        place,
        schema_path,
        evaluation_path,
        absolute_keyword_location: None,
        keyword,
        text,
    })
}

impl<'i> MatchFailure<'i> {
    /// Returns the failure as an error, whose instance is the one at its place.
    pub fn into_error(
        self,
        alloc: Global,
        root: &'i Value,
    ) -> Result<ValidationError<'i>, OutOfMemory>
        ensures error { Shows (error_of true) result (failure_error self.entry) }
        ensures instance { IfOk result (λ e. subject_of e.instance
            ≡ unwrap_or (subject_at (view root.now) e.place) (a_value (view root.now))) }
    {
        let MatchFailure {
            unfinished,
            reason,
            site,
        } = self;
        let text = failure_text(alloc, reason, &unfinished, &site);
        drop(unfinished);
        match text {
            Ok(text) => error_at(alloc, root, site, text),
            Err(error) => {
                drop(site);
                Err(error)
            }
        }
    }
}

/// Returns the position of the first of these sites for this match.
pub fn place_of(sites: &[LocatedMatch<'_>], pattern: &str, subject: &str) -> Option<usize>
    ensures variant { is_some result ≡ is_some (site_of sites.now (pair_of pattern.now subject.now)) }
    ensures place { IsPlaceOf sites.now (pair_of pattern.now subject.now) result }
{
    for (i, one) in sites.iter().enumerate() {
        if one.unfinished.is(pattern, subject) {
            return Some(i);
        }
    }
    None
}
