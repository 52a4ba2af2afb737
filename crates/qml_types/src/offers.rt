//! Which module offers which type under which name.

use crate::kind::TypeNo;

/// A module's name, the name of a type in it, and that type.
pub struct Offer(pub &'static str, pub &'static str, pub TypeNo);

/// All that the modules offer.
pub const OFFERS: [Offer; 20] = [
    Offer("QtQml", "QtObject", TypeNo::QtObject),
    Offer("QtQml", "Component", TypeNo::Component),
    Offer("QtQml", "Timer", TypeNo::Timer),
    Offer("QtQml", "Connections", TypeNo::Connections),
    Offer("QtQml", "Binding", TypeNo::Binding),
    Offer("QtQml.Models", "ListModel", TypeNo::ListModel),
    Offer("QtQml.Models", "ListElement", TypeNo::ListElement),
    Offer("QtQuick", "QtObject", TypeNo::QtObject),
    Offer("QtQuick", "Component", TypeNo::Component),
    Offer("QtQuick", "Timer", TypeNo::Timer),
    Offer("QtQuick", "Connections", TypeNo::Connections),
    Offer("QtQuick", "Binding", TypeNo::Binding),
    Offer("QtQuick", "ListModel", TypeNo::ListModel),
    Offer("QtQuick", "ListElement", TypeNo::ListElement),
    Offer("QtQuick", "Item", TypeNo::Item),
    Offer("QtQuick", "State", TypeNo::State),
    Offer("QtQuick", "PropertyChanges", TypeNo::PropertyChanges),
    Offer("QtQuick", "Repeater", TypeNo::Repeater),
    Offer("QtQuick", "Loader", TypeNo::Loader),
    Offer("QmlRun", "Host", TypeNo::Host),
];
