//! Types that say how a walk was opened. They tell apart walks that are otherwise the same.

/// Says that a walk yields mutable references to the values, with their keys.
pub struct WithKeys;

/// Says that a walk yields mutable references to the values alone.
pub struct ValuesAlone;

/// Says that a walk goes over the pairs within two bounds.
pub struct InRange;

/// Says that a walk goes over the pairs whose keys begin with some bytes.
pub struct BelowFront;

/// Says that a walk goes over the pairs from one leaf through another.
pub struct InSubtree;
