//! The names of the properties that actions read and write, and the prefixes of those that each clip has
//! under its own name (OpenFX 1.4, "Image Effect Actions", "Properties by object").

/// The frame that an action is about.
pub const TIME: &str = "OfxPropTime";
/// What a clip is called.
pub const NAME: &str = "OfxPropName";
/// What an effect is called.
pub const LABEL: &str = "OfxPropLabel";
/// The contexts that an effect supports.
pub const CONTEXTS: &str = "OfxImageEffectPropSupportedContexts";
/// The depths that an effect supports.
pub const DEPTHS: &str = "OfxImageEffectPropSupportedPixelDepths";
/// Whether an effect reads frames other than the current one.
pub const TEMPORAL: &str = "OfxImageEffectPropTemporalClipAccess";
/// Whether an effect supports tiles.
pub const TILES: &str = "OfxImageEffectPropSupportsTiles";
/// How many renders of an effect may run at one time.
pub const SAFETY: &str = "OfxImageEffectPluginRenderThreadSafety";
/// Whether a clip may be left unconnected.
pub const OPTIONAL: &str = "OfxImageClipPropOptional";
/// The components that a clip may have.
pub const COMPONENTS: &str = "OfxImageEffectPropSupportedComponents";
/// The region of definition that an effect answers.
pub const REGION: &str = "OfxImageEffectPropRegionOfDefinition";
/// The region that is asked for.
pub const ASKED_REGION: &str = "OfxImageEffectPropRegionOfInterest";
/// The window that is rendered.
pub const WINDOW: &str = "OfxImageEffectPropRenderWindow";
/// The first and the last frame of a sequence.
pub const SEQUENCE: &str = "OfxImageEffectPropFrameRange";
/// The step from one frame of a sequence to the next.
pub const STEP: &str = "OfxImageEffectPropFrameStep";
/// The depth of a clip, before the clip's name.
pub const CLIP_DEPTH: &str = "OfxImageClipPropDepth_";
/// The components of a clip, before the clip's name.
pub const CLIP_COMPONENTS: &str = "OfxImageClipPropComponents_";
/// The region that is needed of a clip, before the clip's name.
pub const CLIP_REGION: &str = "OfxImageClipPropRoI_";
/// The frames that are needed of a clip, before the clip's name.
pub const CLIP_FRAMES: &str = "OfxImageClipPropFrameRange_";
