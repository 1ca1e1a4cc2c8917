//! Why a window of counts serves.
ghost use Rattle.tk_bloom.specs.Laws.{PushesAreShown, WindowsGoOn};

/// A window that goes on is the window of all pushes.
pub fn windows_go_on()
    ensures { WindowsGoOn }
{}

/// A push that is in the window is shown.
pub fn pushes_are_shown()
    ensures { PushesAreShown }
{}
